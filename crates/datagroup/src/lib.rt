// Data groups: which call the bytes of a group ask for.
#![tactic(auto)]

ghost use Rattle.std.specs.Prelude.{◌≡◌, ◌<◌};
ghost use Rattle.std.specs.List.{AllByRecursion};
ghost use Rattle.datagroup.specs.Groups.{group_of, seen};
ghost use Rattle.datagroup.specs.Written.{GroupLaw};

pub mod contents;
pub mod fields;
pub mod figures;
pub mod groups;
pub mod sums;
#[cfg(test)]
mod tests;

use contents::content;
use groups::Group;
use refusal::Fault;
use sums::checked;

// What the bytes before a flagged checksum ask, where that is right. The law of groups asks besides that bytes are below 256.
#[tactic(auto, unfolding(crate::specs::Groups::group_of))]
fn read(bytes: &[u8]) -> Result<Group<'_>, Fault>
    ensures value { seen result ≡ group_of bytes.now }
    ensures bytes { AllByRecursion (λ b. b < 256) bytes.now }
{
    content(checked(bytes)?)
}

// What a data group asks: type 3 a header call, type 4 a segment call, any other type nothing. Refused in layer 7: with 21 where
// the checksum is wrong, else with 20 where a part is missing, else with 22 where a header is not whole.
#[tactic(auto, using(crate::proofs::Laws::keeps_law))]
pub fn read_group(bytes: &[u8]) -> Result<Group<'_>, Fault>
    ensures value { seen result ≡ group_of bytes.now }
    ensures law { GroupLaw bytes.now (seen result) }
{
    read(bytes)
}
