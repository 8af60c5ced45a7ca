// What one slot answers. The questions differ in the state that they take apart, which no parameter can name.
ghost use Rattle.std.specs.Prelude.{◌≡◌};
ghost use Rattle.slots.specs.Contents.{object_in, slide_held};
ghost use Rattle.slots.specs.Seen.{seen, label, object_of, slide_in};
ghost use Rattle.slots.specs.Slides.{number_in, size_in};
ghost use Rattle.std.specs.Option.{option_map};

use crate::records::{Arrival, Holding, Slot, State};

impl Slot {
    // The object that arrives in it.
    pub fn arrival(&self) -> Option<Arrival>
        ensures { option_map (λ a. object_of a (label self.now)) result ≡ object_in (seen self.now) }
    {
        match self.state {
            State::Arriving(arrival) => Some(arrival),
            _ => None,
        }
    }

    // The slide that it holds.
    pub fn holding(&self) -> Option<Holding>
        ensures { option_map (λ h. slide_in h (label self.now)) result ≡ slide_held (seen self.now) }
    {
        match self.state {
            State::Held(holding) => Some(holding),
            _ => None,
        }
    }

    // The accession number in it, 0 where it is free: numbers begin at 1, and the rules take it as a number everywhere.
    pub fn number(&self) -> u32
        ensures { result ≡ number_in (seen self.now) }
    {
        match self.state {
            State::Free => 0,
            State::Arriving(arrival) => arrival.number,
            State::Held(holding) => holding.number,
        }
    }

    // How long the body is that it holds, 0 where it holds none: a length, as the rules take it.
    pub fn body_size(&self) -> u32
        ensures { result ≡ size_in (seen self.now) }
    {
        match self.state {
            State::Held(holding) => holding.size,
            _ => 0,
        }
    }
}
