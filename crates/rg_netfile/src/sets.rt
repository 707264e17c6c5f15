//! Sets of places with their weights.
ghost use Rattle.std.specs.Prelude.{◌≡◌, ℕ, List, ◌++◌, OnOk};
ghost use Rattle.rg_net.specs.NetText.{place_name, member_text, set_text};
ghost use Rattle.rg_netfile.specs.ListedSets.{members_of};

use crate::flows::WeightedPlace;
use itoa::Buffer;
use rg_memory::NoMemory;

// A set of places, as `{2*p0, p3}`.
pub(crate) fn push_set(
    text: &mut Vec<u8>,
    prefix: &[u8],
    members: &[WeightedPlace],
) -> Result<(), NoMemory>
    ensures { OnOk result ((weights : List ℕ) → members.now ≡ members_of weights → text.new.items ≡ text.old.items ++ set_text prefix.now weights) }
{
    text.push(b'{')?;
    let mut later = false;
    for member in members {
        if later {
            text.extend_from_slice(b", ")?;
        }
        push_member(text, prefix, member.place, member.weight)?;
        later = true;
    }
    text.push(b'}')?;
    Ok(())
}

// A member of a set.
fn push_member(text: &mut Vec<u8>, prefix: &[u8], i: usize, weight: u128) -> Result<(), NoMemory>
    ensures { OnOk result (text.new.items ≡ text.old.items ++ member_text prefix.now i weight) }
{
    if weight != 1 {
        let mut buffer = Buffer::new();
        text.extend_from_slice(buffer.format(weight).as_bytes())?;
        text.push(b'*')?;
    }
    push_place(text, prefix, i)?;
    Ok(())
}

// The name of a place.
pub(crate) fn push_place(text: &mut Vec<u8>, prefix: &[u8], i: usize) -> Result<(), NoMemory>
    ensures { OnOk result (text.new.items ≡ text.old.items ++ place_name prefix.now i) }
{
    let mut buffer = Buffer::new();
    text.extend_from_slice(prefix)?;
    text.extend_from_slice(buffer.format(i).as_bytes())?;
    Ok(())
}
