// A worked replay over a film.
ghost use Rattle.std.specs.Prelude.{◌≡◌, ◌++◌, Some, None, IfOk, vec_len};
ghost use Rattle.display.specs.Figures.{first_entry};
ghost use Rattle.replay.specs.Figures.{second_entry};

use crate::replays::Interrupted;
use crate::tapes::replay_film;
use calls::Call;
use display::films::Film;
use display::tapes::Taped;
use slots::bodies::Sent;
use std::alloc::Global;

// Sends a receiver over a film two slides, and a reading a second behind both of their triggers.
fn replay_two(heap: Global, film: Film) -> Result<Film, Interrupted<Film>>
    ensures { vec_len film.tape ≡ 30 → film.last ≡ None → IfOk result (λ f. ⟦<Film as Taped>⟧.reel f ≡ (first_entry ++ second_entry, Some 15)) }
{
    let calls = [
        Call::Time {
            bytes: &[0xBA, 0x98, 0x08, 0x00, 0x00, 0x00],
        },
        Call::Header {
            transport: 7,
            bytes: &[
                0x00, 0x00, 0x00, 0x30, 0x09, 0x84, 0x01, 0xCC, 0x02, 0x00, 0x41, 0xC5, 0x06, 0xBA,
                0x98, 0x08, 0x00, 0x04, 0x10,
            ],
        },
        Call::Segment {
            transport: 7,
            sent: Sent {
                number: 0,
                last: true,
                bytes: b"abc",
            },
        },
        Call::Header {
            transport: 8,
            bytes: &[
                0x00, 0x00, 0x00, 0x30, 0x09, 0x84, 0x01, 0xCC, 0x02, 0x00, 0x42, 0xC5, 0x06, 0xBA,
                0x98, 0x08, 0x00, 0x04, 0x11,
            ],
        },
        Call::Segment {
            transport: 8,
            sent: Sent {
                number: 0,
                last: true,
                bytes: b"xyz",
            },
        },
        Call::Time {
            bytes: &[0xBA, 0x98, 0x08, 0x00, 0x08, 0x30],
        },
    ];
    let mut memory = [0; 36];
    replay_film(heap, film, 3, &mut memory, &calls)
}

// Two slides that one reading shows: two entries on the tape, each with its own moment.
pub fn two_entries(heap: Global, tape: Vec<u8>) -> Result<Film, Interrupted<Film>>
    ensures { vec_len tape ≡ 30 → IfOk result (λ f. ⟦<Film as Taped>⟧.reel f ≡ (first_entry ++ second_entry, Some 15)) }
{
    replay_two(heap, Film::new(tape))
}
