// What arming a trigger comes to.
ghost use Rattle.std.specs.Prelude.{◌≡◌};
ghost use Rattle.receiver.specs.Verdicts.{verdict_of, told_by};
ghost use Rattle.rules.specs.Triggers.{verdict};

use moment::times::Time;
use rules::answers::Answer;

// There is no trigger, it takes effect at once, it is late and never does, or it waits for its moment.
#[derive(Clone, Copy)]
pub(crate) enum Verdict {
    Nothing,
    Effect,
    Late,
    Wait(u64),
}

impl Verdict {
    // Now and a moment equal to the clock take effect at once, a lower one is late, a higher one waits.
    pub(crate) fn at(clock: u64, trigger: Option<Time>) -> Verdict
        ensures { verdict_of result ≡ verdict clock trigger }
    {
        match trigger {
            None => Verdict::Nothing,
            Some(Time::Now) => Verdict::Effect,
            Some(Time::At(moment)) => {
                if moment == clock {
                    Verdict::Effect
                } else if moment < clock {
                    Verdict::Late
                } else {
                    Verdict::Wait(moment)
                }
            }
        }
    }

    // What a call answers that came to this: `quiet` where no trigger took effect and none was late.
    pub(crate) fn told(self, number: u32, quiet: Answer) -> Answer
        ensures { result ≡ told_by (verdict_of self) number quiet }
    {
        match self {
            Verdict::Effect => Answer::Shown(number),
            Verdict::Late => Answer::Late(number),
            Verdict::Nothing | Verdict::Wait(_) => quiet,
        }
    }
}
