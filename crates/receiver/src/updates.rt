// What an update header is, and what it changes; a changed header changes that too.
ghost use Rattle.std.specs.Prelude.{◌≡◌, ℕ, true, List};
ghost use Rattle.display.specs.Meaning.{Meaning};
ghost use Rattle.header.specs.Headers.{record_of};
ghost use Rattle.receiver.specs.Heard.{HeardFits, heard_by, heard_by_effects};
ghost use Rattle.receiver.specs.Views.{state_of, world_of};
ghost use Rattle.rules.specs.Effects.{amended_effects, update_effects};
ghost use Rattle.rules.specs.Headers.{is_held, recategorised, amended, update_step};
ghost use Rattle.rules.specs.Reached.{Reached};
ghost use Rattle.rules.specs.Worlds.{slot_at, any};
ghost use Rattle.slots.specs.Slides.{numbered};

use crate::headers::Heard;
use crate::parts::Parts;
use display::Display;
use header::kinds::{Category, Header};
use rules::answers::Answer;
use slots::images::real_category;
use slots::indices::SlotIndex;
use slots::sought::Named;

impl Parts {
    // What an update header is, by the slides that are held.
    pub(crate) fn update_heard(&self, header: &Header<'_>) -> Heard
        ensures steps { (m : Meaning) (memory : List ℕ) (transport : ℕ) → update_step (world_of self.now memory m) (record_of header.now) ≡ heard_by result (world_of self.now memory m) transport (record_of header.now) }
        ensures tells { (m : Meaning) (memory : List ℕ) (transport : ℕ) → update_effects (world_of self.now memory m) (record_of header.now) ≡ heard_by_effects result (world_of self.now memory m) transport (record_of header.now) }
        ensures fits { (transport : ℕ) → HeardFits result (state_of self.now) transport (record_of header.now) }
    {
        match self.slots.find(&Named(header.name)) {
            Some(k) => Heard::Update(k),
            None => Heard::Stray,
        }
    }

    // Puts a held slide into the category that a header gives, if it gives one; 00 00 means none.
    fn recategorise(&mut self, category: Option<Category>, number: u32)
        requires { any (numbered number) (state_of self.old).slots ≡ true }
        ensures world { (m : Meaning) (memory : List ℕ) → world_of self.new memory m ≡ recategorised category number (world_of self.old memory m) }
        ensures slots { (state_of self.new).slots ≡ (state_of self.old).slots }
    {
        if category.is_some() {
            self.categorise(real_category(category), number);
        }
    }
    // What a header's trigger and category do for the slide in slot k, each where it is given.
    #[tactic(auto, using(crate::proofs::Tellings::update_told))]
    pub(crate) fn amend<D: Display>(
        &mut self,
        display: &mut D,
        memory: &[u8],
        k: SlotIndex,
        header: &Header<'_>,
    ) -> Answer
        requires { is_held (slot_at (state_of self.old) k.index) ≡ true }
        ensures world { (result, world_of self.new memory.now (D.Display.meaning display.new)) ≡ amended k.index (record_of header.now) (world_of self.old memory.now (D.Display.meaning display.old)) }
        ensures reached { Reached D.Display.told display.old (amended_effects k.index (record_of header.now) (world_of self.old memory.now (D.Display.meaning display.old))) display.new }
    {
        let number = self.number_at(k);
        self.recategorise(header.category, number);
        self.arm(display, memory, k, header.trigger)
            .told(number, Answer::Changed(number))
    }
}
