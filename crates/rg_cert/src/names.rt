//! The states and labels that names name.
ghost use Rattle.std.specs.Prelude.{◌≡◌, ◌<◌, IfSome, IfNone, Contains};
ghost use Rattle.rg_text.specs.Byte.{IsName};
ghost use Rattle.rg_theory.specs.System.{states, labels};
ghost use Rattle.rg_cert.specs.Text.{state_name, label_name};

use rg_lts::Lts;
use std::str;

// The text of a name.
fn text_of(name: &[u8]) -> &str
    requires { IsName name.now }
    ensures { result.now ≡ name.entry.now }
{
    str::from_utf8(name).unwrap()
}

// The state of this name; None if there is none.
pub(crate) fn state_in(name: &[u8], lts: &Lts) -> Option<u32>
    requires { IsName name.now }
    ensures some { IfSome result (λ s. (s < states lts.now) × (name.now ≡ state_name lts.now s)) }
    ensures none { IfNone result (¬ Contains lts.now.state_names name.now) }
{
    lts.state_number(text_of(name))
}

// The label of this name; None if there is none.
pub(crate) fn label_in(name: &[u8], lts: &Lts) -> Option<u32>
    requires { IsName name.now }
    ensures some { IfSome result (λ t. (t < labels lts.now) × (name.now ≡ label_name lts.now t)) }
    ensures none { IfNone result (¬ Contains lts.now.label_names name.now) }
{
    lts.label_number(text_of(name))
}

// The state of a name that the system has.
pub(crate) fn state_of(name: &[u8], lts: &Lts) -> u32
    requires name { IsName name.now }
    requires known { Contains lts.now.state_names name.now }
    ensures { (result < states lts.now) × (name.now ≡ state_name lts.now result) }
{
    state_in(name, lts).unwrap()
}

// The label of a name that the system has.
pub(crate) fn label_of(name: &[u8], lts: &Lts) -> u32
    requires name { IsName name.now }
    requires known { Contains lts.now.label_names name.now }
    ensures { (result < labels lts.now) × (name.now ≡ label_name lts.now result) }
{
    label_in(name, lts).unwrap()
}
