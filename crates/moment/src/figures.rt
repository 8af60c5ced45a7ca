// Worked examples of the time field, proved from its definition. Each is a function of its own, whose contract names its
// figure.
ghost use Rattle.std.specs.Prelude.{◌≡◌, [], ◌∷◌, Ok, Err};
ghost use Rattle.moment.specs.Field.{time_of, time_fault};
ghost use Rattle.moment.specs.declared.times.Time.TheVariants.{At};

use crate::read_time;
use crate::times::Time;
use refusal::Fault;

// A second and sixteen milliseconds into day 60,000.
pub fn second_of_day_60000() -> Result<Time, Fault>
    ensures figure { time_of (0xBA ∷ 0x98 ∷ 0x08 ∷ 0x00 ∷ 0x04 ∷ 0x10 ∷ []) ≡ Ok (At 5184000001016) }
    ensures answer { result ≡ Ok (At 5184000001016) }
{
    read_time(&[0xBA, 0x98, 0x08, 0x00, 0x04, 0x10])
}

// The last millisecond of day 60,000.
pub fn end_of_day_60000() -> Result<Time, Fault>
    ensures figure { time_of (0xBA ∷ 0x98 ∷ 0x0D ∷ 0xFB ∷ 0xEF ∷ 0xE7 ∷ []) ≡ Ok (At 5184086399999) }
    ensures answer { result ≡ Ok (At 5184086399999) }
{
    read_time(&[0xBA, 0x98, 0x0D, 0xFB, 0xEF, 0xE7])
}

// The same with second 60 is refused.
pub fn second_60_is_refused() -> Result<Time, Fault>
    ensures figure { time_of (0xBA ∷ 0x98 ∷ 0x0D ∷ 0xFB ∷ 0xF3 ∷ 0xE7 ∷ []) ≡ Err time_fault }
    ensures answer { result ≡ Err time_fault }
{
    read_time(&[0xBA, 0x98, 0x0D, 0xFB, 0xF3, 0xE7])
}
