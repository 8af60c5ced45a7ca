// From a line of text to its answer.
ghost use Rattle.std.specs.Prelude.{◌≡◌, IfOk};
ghost use Rattle.frametime.specs.Answers.{frames_at, told, answer_to, answers_to};
ghost use Rattle.hexpairs.specs.Lines.{lines_of};
ghost use Rattle.hexpairs.specs.Text.{bytes_of};
ghost use Rattle.moment.specs.Field.{time_of};

use crate::lines::{Answer, Frames, NoTime, Shown};
use crate::timings::Timing;
use display::Display;
use display::edges::Edge;
use display::lags::Lag;
use display::panels::Panel;
use hexpairs::hex_bytes;
use hexpairs::lines::lines_of;
use moment::times::Time;
use moment::{read_time, split};
use std::alloc::{AllocError, Global};

impl Timing {
    // When a display shows what it is told for a moment.
    #[tactic(auto, using(crate::proofs::Settled::settled_is), unfolding(crate::specs::Answers::frames_at))]
    fn frames(self, heap: Global, moment: u64) -> Frames
        ensures { result ≡ frames_at self.period.value self.delay.value moment }
    {
        let Timing { period, delay } = self;
        let panel = Panel::new(Vec::new(heap));
        let edge = Edge::new(Panel::new(Vec::new(heap)), period);
        let lag = Lag::new(Panel::new(Vec::new(heap)), delay);
        let (day, millis) = split(moment);
        Frames {
            moment,
            day,
            millis,
            panel: panel.settle(moment),
            edge: edge.settle(moment),
            lag_over_edge: Lag::new(edge, delay).settle(moment),
            edge_over_lag: Edge::new(lag, period).settle(moment),
        }
    }

    // What a time field comes to.
    fn told(self, heap: Global, field: &[u8]) -> Answer
        ensures { result ≡ told self.period.value self.delay.value (time_of field.now) }
    {
        match read_time(field)? {
            Time::At(moment) => Ok(Shown::Settled(self.frames(heap, moment))),
            Time::Now => Ok(Shown::AtOnce),
        }
    }

    // The answer to a line: a time field in hexadecimal, or any other text.
    pub fn answer(self, heap: Global, text: &[u8]) -> Result<Answer, AllocError>
        ensures { IfOk result (λ a. a ≡ answer_to self.period.value self.delay.value (bytes_of text.now)) }
    {
        match hex_bytes(heap, text)? {
            None => Ok(Err(NoTime::NotHexadecimal)),
            Some(field) => Ok(self.told(heap, field.as_slice())),
        }
    }

    // The answers to a whole input, line by line.
    pub fn answers(self, heap: Global, input: &[u8]) -> Result<Vec<Answer>, AllocError>
        ensures { IfOk result (λ v. v.items ≡ answers_to self.period.value self.delay.value (lines_of input.now)) }
    {
        let mut all = Vec::new(heap);
        for line in lines_of(input) {
            all.push(self.answer(heap, line)?)?;
        }
        Ok(all)
    }
}
