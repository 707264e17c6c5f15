//! What a net file declares, or its first fault in tokens or grammar.
ghost use Rattle.std.specs.Prelude.{◌≡◌, ◌≢◌, ◌≤◌, List, length, IfOk, IfErr};
ghost use Rattle.rg_text.specs.Limits.{most_bytes};
ghost use Rattle.rg_grammar.specs.declared.fault.ItemFault.TheVariants.{NoMemory};
ghost use Rattle.rg_net_grammar.specs.Item.{Item};
ghost use Rattle.rg_net_grammar.specs.Contents.{declared};
ghost use Rattle.rg_net_grammar.specs.Text.{AreItemsOf, FirstItemFault};
ghost use Rattle.rg_net_grammar.specs.View.{found_in, HoldsNames};

use crate::found::Found;
use rg_grammar::{ItemFault, read};
use std::alloc::Global;

/// Returns what a net file of at most 16,777,216 bytes declares, or its first fault in tokens or grammar. By
/// `one_answer` no other answer meets these clauses: what a text declares is one, and so is its first fault.
///
/// A file is a list of items: `.type` with `PN` or `LPN`; `.places` and `.transitions` with entries, which are
/// names with or without options in brackets; `.flows` with flows `NAME: SET -> SET`; `.initial_marking` with a
/// set; any other word with a text in quotes. A set is `{`, members separated by commas, `}`; a member is the
/// name of a place, or a number, `*` and the name. It is the layout of the tool APT.
///
/// Errors: `BadByte`, `OpenString`, `OpenComment` or `LongName`, the first in the text; else `Expected`
/// or `WrongType` at the first token that can't continue the grammar; `NoMemory` where memory runs out.
pub fn read_items(alloc: Global, bytes: &[u8]) -> Result<Found, ItemFault>
    requires { length bytes.now ≤ most_bytes }
    ensures ok { IfOk result (λ f. (items : List Item) × AreItemsOf bytes.now items × (found_in bytes.now f ≡ declared items)) }
    ensures names { IfOk result (HoldsNames bytes.now) }
    ensures fault { IfErr result (λ e. e ≢ NoMemory → FirstItemFault bytes.now e) }
{
    read(alloc, bytes)
}
