// The two phases of a receiver.

// No setting has been accepted yet, and the clock says 0.
#[derive(Clone, Copy)]
pub struct Unset;

// The clock was set. It never goes back.
#[derive(Clone, Copy)]
pub struct Running;
