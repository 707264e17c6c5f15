//! The net that a text spells for a system.
ghost use Rattle.std.specs.Prelude.{◌≢◌, ◌≤◌, length, IfOk, IfErr};
ghost use Rattle.rg_text.specs.Limits.{most_bytes};
ghost use Rattle.rg_netfile.specs.Spells.{Spells, FirstFault};
ghost use Rattle.rg_netfile.specs.declared.fault.NetFault.TheVariants.{NoMemory};

use crate::building::build;
use crate::fault::NetFault;
use rg_lts::Lts;
use rg_net::Net;
use rg_net_grammar::read_items;
use std::alloc::Global;

/// Returns the net that a text of at most 16,777,216 bytes spells for a system in the format of APT, or the text's
/// first fault. By `one_answer` no other answer meets these clauses.
///
/// Errors: `BadByte`, `OpenString`, `OpenComment` or `LongName`, the first in the text; else `Expected`
/// or `WrongType` at the first token that can't continue the grammar; else the first fault of what is
/// declared: `NoType`; by place `TwicePlace` or `TooManyPlaces`; by transition `TwiceTransition`;
/// `TransitionsDiffer`; by flow `UnknownTransition` and by member `NumberPasses` or `UnknownPlace`, and so
/// for the members of the markings; `NoMemory` where memory runs out.
pub fn read_net(alloc: Global, bytes: &[u8], lts: &Lts) -> Result<Net, NetFault>
    requires { length bytes.now ≤ most_bytes }
    ensures ok { IfOk result (λ net. Spells bytes.now lts.now net) }
    ensures fault { IfErr result (λ e. e ≢ NoMemory → FirstFault bytes.now lts.now e) }
{
    let found = read_items(alloc, bytes)?;
    let net = build(alloc, bytes, lts, &found)?;
    Ok(net)
}
