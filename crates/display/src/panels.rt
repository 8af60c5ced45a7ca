// The panel: a display that copies each body into its frame memory.
ghost use Rattle.std.specs.Prelude.{◌≡◌, ℕ, ◌≤◌, min, None, vec_len};
ghost use Rattle.display.specs.Frame.{panel, used, Framed};
ghost use Rattle.display.specs.Meaning.{blank, ByShow};
ghost use Rattle.display.specs.Lifted.{panel_keeps};
ghost use Rattle.display.specs.Lasting.{panel_steady};

use crate::cards::CardNumbers;
use crate::copying::copy_in;
use crate::plain::{admit, settled};
use crate::{Display, LARGEST_FRAME};
use refusal::Fault;

// A display by its frame memory. The card's body stands at the front of it.
#[derive(Drop)]
pub struct Panel {
    memory: Vec<u8>,
    held: Option<CardNumbers>,
    ghost within: { used held ≤ vec_len memory },
}

impl Panel {
    // A panel without a card over memory of any length; bytes past the largest frame stay unused.
    pub fn new(memory: Vec<u8>) -> Panel
        ensures fields { (result.memory ≡ memory) × (result.held ≡ None) }
        ensures means { panel result.memory.items result.held ≡ blank (min (vec_len memory) 65536) }
    {
        Panel { memory, held: None }
    }
}

impl Display for Panel {
    ghost meaning = { λ p. panel p.memory.items p.held };

    ghost told = { λ p a t b q. ByShow (panel p.memory.items p.held) a t b (Framed p.memory.items a t b q.memory.items q.held) (q ≡ p) };

    ghost keeps = { λ p. panel_keeps p.memory.items p.held };

    ghost steady = { λ p q a t b. panel_steady p.memory.items q.memory.items p.held q.held a t b (λ e i. (e i).memory.items) };

    fn show(&mut self, accession: u32, moment: u64, body: &[u8]) -> Result<(), Fault> {
        let size = body.len();
        admit(self.frame(), accession, moment, size)?;
        copy_in(&mut self.memory, 0, body);
        self.held = Some(CardNumbers {
            accession,
            since: moment,
            length: size as u32,
        });
        Ok(())
    }

    fn frame(&self) -> u32 {
        self.memory.len().min(LARGEST_FRAME) as u32
    }

    fn lag(&self) -> u64 {
        0
    }

    fn settle(&self, moment: u64) -> Option<u64> {
        settled(moment)
    }

    fn card(&self) -> Option<CardNumbers> {
        self.held
    }

    fn byte(&self, at: usize) -> Option<u8> {
        let held = self.held?;
        self.memory[..held.length as usize].get(at).copied()
    }
}
