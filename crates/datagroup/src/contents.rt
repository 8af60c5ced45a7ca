// What stands before the checksum of a data group: two head bytes, and the fields.
ghost use Rattle.std.specs.Prelude.{◌≡◌};
ghost use Rattle.std.specs.Result.{result_map_both};
ghost use Rattle.datagroup.specs.Fields.{seen_fields};
ghost use Rattle.datagroup.specs.Groups.{demanded, content, seen};

use crate::fields::{Fields, read_fields};
use crate::groups::Group;
use crate::sums::refused;
use refusal::Fault;
use refusal::causes::Cause;

// The fields behind the two head bytes, which a group of type 3 or 4 has to have.
fn demanded(head: u8, bytes: &[u8]) -> Result<Fields<'_>, Fault>
    ensures { result_map_both seen_fields (λ e. e) result ≡ demanded head bytes.now }
{
    read_fields(head, bytes).ok_or(refused(Cause::GroupMalformed))
}

// What the bytes before the checksum ask. Refused with 20 and 22.
pub fn content(bytes: &[u8]) -> Result<Group<'_>, Fault>
    ensures { seen result ≡ content bytes.now }
{
    let [head, _, behind @ ..] = bytes else {
        return Err(refused(Cause::GroupMalformed));
    };
    match *head % 16 {
        3 => demanded(*head, behind)?.header(),
        4 => Ok(demanded(*head, behind)?.segment()),
        _ => Ok(Group::Other),
    }
}
