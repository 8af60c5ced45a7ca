// Triggers take effect, wait or are undone.
ghost use Rattle.std.specs.Prelude.{◌≡◌, ◌*◌, [], ◌∷◌, true};
ghost use Rattle.receiver.specs.Verdicts.{verdict_of};
ghost use Rattle.receiver.specs.Views.{state_of, world_of};
ghost use Rattle.rules.specs.Effects.{arming_effects};
ghost use Rattle.rules.specs.Headers.{is_held};
ghost use Rattle.rules.specs.Reached.{Reached};
ghost use Rattle.rules.specs.Triggers.{verdict};
ghost use Rattle.rules.specs.Worlds.{slot_at, armed, effect_at, show_all};
ghost use Rattle.slots.specs.Pieces.{part};
ghost use Rattle.slots.specs.Slides.{size_in};

use crate::parts::Parts;
use crate::verdicts::Verdict;
use display::Display;
use moment::times::Time;
use rack::sieves::Other;
use slots::indices::SlotIndex;

impl Parts {
    // The body in slot k, as a part of body memory. Where that is too short it ends early: so no caller owes its length.
    pub(crate) fn body_in<'m>(&self, k: SlotIndex, memory: &'m [u8]) -> &'m [u8]
        ensures { result.now ≡ part (k.index * self.now.room) (size_in (slot_at (state_of self.now) k.index)) memory.now }
    {
        let start = (k.get() * self.room as usize).min(memory.len());
        let behind = &memory[start..];
        let size = (self.slots.at(k).body_size() as usize).min(behind.len());
        &behind[..size]
    }

    // Shows the slide in slot k from a moment on.
    pub(crate) fn show<D: Display>(&self, display: &mut D, memory: &[u8], k: SlotIndex, moment: u64)
        ensures shows { D.Display.meaning display.new ≡ show_all (D.Display.meaning display.old) (effect_at (world_of self.now memory.now (D.Display.meaning display.old)) moment k.index ∷ []) }
        ensures reached { Reached D.Display.told display.old (effect_at (world_of self.now memory.now (D.Display.meaning display.old)) moment k.index ∷ []) display.new }
    {
        let _ = display.show(self.number_at(k), moment, self.body_in(k, memory));
    }

    // Arms a trigger, if there is one, for the slide in slot k, and answers what that came to; it undoes the waiting one.
    pub(crate) fn arm<D: Display>(
        &mut self,
        display: &mut D,
        memory: &[u8],
        k: SlotIndex,
        trigger: Option<Time>,
    ) -> Verdict
        requires { is_held (slot_at (state_of self.old) k.index) ≡ true }
        ensures answer { verdict_of result ≡ verdict self.old.clock trigger }
        ensures world { world_of self.new memory.now (D.Display.meaning display.new) ≡ armed (verdict_of result) k.index (world_of self.old memory.now (D.Display.meaning display.old)) }
        ensures reached { Reached D.Display.told display.old (arming_effects (verdict self.old.clock trigger) k.index (world_of self.old memory.now (D.Display.meaning display.old))) display.new }
    {
        let slot = u32::from(k);
        let verdict = Verdict::at(self.clock, trigger);
        match verdict {
            Verdict::Nothing => {}
            Verdict::Late => self.waiting.keep(&Other(slot)),
            Verdict::Effect => {
                self.show(display, memory, k, self.clock);
                self.waiting.keep(&Other(slot));
            }
            Verdict::Wait(moment) => {
                self.waiting.keep(&Other(slot));
                let _ = self.waiting.put(moment, slot);
            }
        }
        verdict
    }
}
