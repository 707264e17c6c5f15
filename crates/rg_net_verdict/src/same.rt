//! States with one marking.
ghost use Rattle.std.specs.Prelude.{◌≡◌, ◌↔◌, ◌<◌, length, IfOk, IfSome, IfNone, IsTrue};
ghost use Rattle.rg_theory.specs.System.{states};
ghost use Rattle.rg_theory.specs.Solves.{marking_of};
ghost use Rattle.rg_net.specs.ClassBreaks.{shown_markings};
ghost use Rattle.rg_net_verdict.specs.Verdict.{AreFirstSame, AllDiffer};

use indexmap::IndexSet;
use rg_lts::Lts;
use std::alloc::{AllocError, Global};

// The first two states with one row, by the lesser and then by the greater.
pub(crate) fn first_same(
    alloc: Global,
    lts: &Lts,
    rows: &[Vec<u128>],
) -> Result<Option<(u32, u32)>, AllocError>
    requires { length rows.now ≡ states lts.now }
    ensures some { IfOk result (λ o. IfSome o (λ f. AreFirstSame lts.now (marking_of (shown_markings rows.now)) f.0 f.1)) }
    ensures none { IfOk result (λ o. IfNone o (AllDiffer lts.now (marking_of (shown_markings rows.now)))) }
{
    let mut seen = IndexSet::new(alloc);
    let mut firsts = Vec::new(alloc);
    let mut best = None;
    for s in 0..lts.states() {
        let (number, added) = seen.insert_full(rows[s as usize].as_slice())?;
        if added {
            firsts.push(s)?;
        } else if is_less(firsts[number], best) {
            best = Some((firsts[number], s));
        }
    }
    Ok(best)
}

// Whether the state is less than the first one of the pair that was found before, or none was.
fn is_less(s: u32, best: Option<(u32, u32)>) -> bool
    ensures { IsTrue result ↔ IfSome best (λ f. s < f.0) }
{
    match best {
        Some((first, _)) => s < first,
        None => true,
    }
}
