//! Names as text, and names that are added where they are new.
ghost use Rattle.std.specs.Prelude.{◌≡◌, ◌↔◌, ◌⊎◌, ◌<◌, ◌≤◌, length, slice_get, Some, Contains, IfErr, IfOk, IsErrOf, OnOk};
ghost use Rattle.std.specs.Str.{bytes_eq};
ghost use Rattle.rg_text.specs.Byte.{IsName};
ghost use Rattle.rg_theory.specs.Limits.{most_states, most_labels};
ghost use Rattle.rg_line_formats.specs.First.{with_new};
ghost use Rattle.rg_line_formats.specs.Grown.{with_state, with_label};
ghost use Rattle.rg_lts.specs.declared.fault.BuildFault.TheVariants as fault;

use rg_lts::{BuildFault, LtsBuilder};
use std::str;

/// Returns the bytes of a name as a text.
pub fn as_name(name: &[u8]) -> &str
    requires { IsName name.now }
    ensures { result.now ≡ name.entry.now }
{
    str::from_utf8(name).unwrap()
}

/// Adds a state of this name if there is none, and returns its number. Returns `TooManyStates` if there are 4,096
/// others, and `NoMemory` if memory runs out.
pub fn add_state(builder: &mut LtsBuilder, name: &str) -> Result<u32, BuildFault>
    requires { IsName name.now }
    ensures ok { OnOk result (builder.new ≡ with_state builder.old name.now) }
    ensures at { IfOk result (λ s. slice_get builder.new.state_names s ≡ Some name.now) }
    ensures few { OnOk result (length builder.old.state_names ≤ most_states → length builder.new.state_names ≤ most_states) }
    ensures too_many { IsErrOf result fault.TooManyStates ↔ ((¬ Contains builder.old.state_names name.now) × (most_states ≤ length builder.old.state_names)) }
    ensures one_more { IsErrOf result fault.TooManyStates → most_states < length (with_new bytes_eq builder.old.state_names name.now) }
    ensures cause { IfErr result (λ e. (e ≡ fault.TooManyStates) ⊎ (e ≡ fault.NoMemory)) }
{
    if let Some(s) = builder.state_number(name) {
        return Ok(s);
    }
    match builder.state(name) {
        Ok(s) => Ok(s),
        Err(BuildFault::TooManyStates) => Err(BuildFault::TooManyStates),
        Err(BuildFault::NoMemory) => Err(BuildFault::NoMemory),
        Err(_) => unreachable!(),
    }
}

/// Adds a label of this name if there is none, and returns its number. Returns `TooManyLabels` if there are 256
/// others, and `NoMemory` if memory runs out.
pub fn add_label(builder: &mut LtsBuilder, name: &str) -> Result<u32, BuildFault>
    requires { IsName name.now }
    ensures ok { OnOk result (builder.new ≡ with_label builder.old name.now) }
    ensures at { IfOk result (λ t. slice_get builder.new.label_names t ≡ Some name.now) }
    ensures few { OnOk result (length builder.old.label_names ≤ most_labels → length builder.new.label_names ≤ most_labels) }
    ensures too_many { IsErrOf result fault.TooManyLabels ↔ ((¬ Contains builder.old.label_names name.now) × (most_labels ≤ length builder.old.label_names)) }
    ensures one_more { IsErrOf result fault.TooManyLabels → most_labels < length (with_new bytes_eq builder.old.label_names name.now) }
    ensures cause { IfErr result (λ e. (e ≡ fault.TooManyLabels) ⊎ (e ≡ fault.NoMemory)) }
{
    if let Some(t) = builder.label_number(name) {
        return Ok(t);
    }
    match builder.label(name) {
        Ok(t) => Ok(t),
        Err(BuildFault::TooManyLabels) => Err(BuildFault::TooManyLabels),
        Err(BuildFault::NoMemory) => Err(BuildFault::NoMemory),
        Err(_) => unreachable!(),
    }
}
