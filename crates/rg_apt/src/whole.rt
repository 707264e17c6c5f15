//! The system that a text spells.
ghost use Rattle.std.specs.Prelude.{◌≢◌, ◌≤◌, length, IfOk, IfErr};
ghost use Rattle.rg_text.specs.Limits.{most_bytes};
ghost use Rattle.rg_apt.specs.Spells.{FirstFault, Spells};
ghost use Rattle.rg_apt.specs.declared.fault.TextFault.TheVariants.{NoMemory};

use crate::building::build;
use crate::fault::TextFault;
use crate::found::Found;
use rg_grammar::read;
use rg_lts::Lts;
use std::alloc::Global;

/// Returns the system that a text of at most 16,777,216 bytes spells in the format of APT, or the text's first fault.
/// By `one_answer` no other answer meets these clauses.
///
/// Errors: `BadByte`, `OpenString`, `OpenComment` or `LongName`, the first in the text; else `Expected`
/// or `WrongType` at the first token that can't continue the grammar; else the first fault of what is
/// declared, in the order `NoType`, faults of states, of labels, of arcs, `NoInitial`; `NoMemory` where
/// memory runs out.
pub fn read_lts(alloc: Global, bytes: &[u8]) -> Result<Lts, TextFault>
    requires { length bytes.now ≤ most_bytes }
    ensures ok { IfOk result (λ lts. Spells bytes.now lts) }
    ensures fault { IfErr result (λ e. e ≢ NoMemory → FirstFault bytes.now e) }
{
    let found: Found = read(alloc, bytes)?;
    let lts = build(alloc, bytes, &found)?;
    Ok(lts)
}
