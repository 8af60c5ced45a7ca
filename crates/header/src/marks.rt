// Length marks: the upper two bits of a parameter's first byte.
ghost use Rattle.std.specs.Prelude.{◌≡◌, ℕ, ◌*◌, ◌<◌, List};
ghost use Rattle.std.specs.Option.{SomeIff};
ghost use Rattle.header.specs.Params.{marked_length, extent_of, extent_by_rule};

// The bytes of data that a mark stands for: 0, 1 or 4. None for mark 3, behind which the length
// is given in bytes of its own, and for numbers above 3, which are no marks.
#[tactic(auto, using(crate::proofs::Lengths::by_rule))]
pub fn marked_length(mark: u8) -> Option<usize>
    ensures listed { result ≡ marked_length mark }
    // the list and the rule agree: at this mark, and at every parameter
    ensures rule { SomeIff result (mark < 3) (mark * mark) }
    ensures extents { (xs : List ℕ) → extent_of xs ≡ extent_by_rule xs }
{
    match mark {
        0 => Some(0),
        1 => Some(1),
        2 => Some(4),
        _ => None,
    }
}
