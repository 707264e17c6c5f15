//! Numbers of states and labels.
ghost use Rattle.std.specs.Prelude.{◌≡◌, ◌<◌, ◌≤◌, length, Contains, Some, IfSome, IfNone, slice_get};
ghost use Rattle.rg_theory.specs.Limits.{most_states};

use crate::name_list::NameList;

// The number of a name; None if it isn't there.
pub(crate) fn number_of(names: &NameList, name: &str) -> Option<u32>
    requires { length names.now ≤ most_states }
    ensures within { IfSome result (λ i. i < length names.now) }
    ensures found { IfSome result (λ i. slice_get names.now i ≡ Some name.now) }
    ensures none { IfNone result (¬ Contains names.now name.now) }
{
    match names.number_of(name) {
        Some(i) => Some(i as u32),
        None => None,
    }
}
