// Moments: the time field reader, and the split of a moment into its day and the milliseconds of that day.
#![tactic(auto)]

ghost use Rattle.std.specs.Prelude.{◌≡◌, ℕ, ◌+◌, ◌*◌, ◌^◌, ◌<◌, ◌≤◌, MatchOption};
ghost use Rattle.moment.specs.Days.{join_of, split_of, Joined};
ghost use Rattle.moment.specs.Field.{time_of, time_with, moment_at};
ghost use Rattle.moment.specs.Forms.{form_bit};

pub mod figures;
#[cfg(test)]
mod tests;
pub mod times;

use packed::number;
use refusal::Fault;
use refusal::causes::{Cause, Layer};
use times::Time;

const DAY: u64 = 86_400_000;

// The refusal of a field that names no moment.
pub const BAD_TIME: Fault = Fault {
    cause: Cause::ParameterMalformed,
    layer: Layer::TimeField,
    place: 0,
};

// The forms of a time field. The discriminant is the bit by which a field says its own.
#[derive(Clone, Copy, PartialEq, Eq)]
enum Form {
    Short = 0,
    Long = 1,
}

// The moment of a day and a time of day, if that is a time of day and not moment 0.
fn moment_at(day: u64, hours: u64, minutes: u64, seconds: u64, millis: u64) -> Result<Time, Fault>
    requires { day < 2 ^ 17 }
    ensures { result ≡ moment_at day hours minutes seconds millis }
{
    if hours > 23 || minutes > 59 || seconds > 59 || millis > 999 {
        return Err(BAD_TIME);
    }
    let moment = day * DAY + (((hours * 60 + minutes) * 60 + seconds) * 1000 + millis);
    if moment == 0 {
        return Err(BAD_TIME);
    }
    Ok(Time::At(moment))
}

// A time field by its first 32 bits, which both forms share, and the form that it must have; seconds and milliseconds
// stand behind those bits in the long form alone.
fn field(head: u64, form: Form, seconds: u64, millis: u64) -> Result<Time, Fault>
    ensures { result ≡ time_with head (form_bit form) seconds millis }
{
    if head / 0x8000_0000 % 2 == 0 {
        return Ok(Time::Now);
    }
    if head / 0x800 % 2 != form as u64 {
        return Err(BAD_TIME);
    }
    moment_at(
        head / 0x4000 % 0x2_0000,
        head / 0x40 % 0x20,
        head % 0x40,
        seconds,
        millis,
    )
}

// What a time field says; any bytes that are no time field are refused.
#[tactic(auto, using(crate::proofs::Heads::long_by_head))]
pub fn read_time(bytes: &[u8]) -> Result<Time, Fault>
    ensures { result ≡ time_of bytes.now }
{
    let word = number(bytes).ok_or(BAD_TIME)?;
    match bytes.len() {
        4 => field(word, Form::Short, 0, 0),
        6 => field(
            word / 0x1_0000,
            Form::Long,
            word / 0x400 % 0x40,
            word % 0x400,
        ),
        _ => Err(BAD_TIME),
    }
}

// The split of a moment: its day, and the milliseconds of that day.
pub fn split(moment: u64) -> (u64, u32)
    ensures value { result ≡ split_of moment }
    ensures back { join_of result.0 result.1 ≡ moment }
{
    (moment / DAY, (moment % DAY) as u32)
}

// The moment of a day and the milliseconds of that day; none where no day has that millisecond or the count has no room.
pub fn join(day: u64, millis: u32) -> Option<u64>
    ensures { Joined day millis result }
{
    if u64::from(millis) >= DAY {
        return None;
    }
    day.checked_mul(DAY)?.checked_add(u64::from(millis))
}
