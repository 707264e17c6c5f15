//! One label of a word.
ghost use Rattle.std.specs.Prelude.{◌≡◌, ◌≢◌, ◌⊎◌, ◌<◌, ◌≤◌, ◌++◌, ◌∷◌, [], false, nat_lt, length, slice_get, Contains, List, Some, string_bytes, decimal, IfErr, IfOk, OnOk};
ghost use Rattle.std.specs.Str.{bytes_eq};
ghost use Rattle.rg_text.specs.Byte.{IsName};
ghost use Rattle.rg_text.specs.Limits.{most_name_bytes};
ghost use Rattle.rg_theory.specs.Limits.{most_labels};
ghost use Rattle.rg_line_formats.specs.First.{with_new};
ghost use Rattle.rg_line_formats.specs.Grown.{with_label};
ghost use Rattle.rg_words.specs.Contents.{Use, name_bytes, fault_of};
ghost use Rattle.rg_words.specs.declared.fault.WordFault.TheVariants as fault;
ghost use Rattle.rg_words.specs.declared.fault.WordFault.TheVariants.{NoMemory};

use crate::fault::WordFault;
use indexmap::IndexSet;
use itoa::Buffer;
use rg_line_formats::add_label;
use rg_lts::{BuildFault, LtsBuilder};
use rg_text::{MOST_NAME_BYTES, name_len};
use std::alloc::{AllocError, AllocFailed, Global};

// Tells whether the label is a name.
pub(crate) fn check(label: &[u8], number: u32) -> Result<(), WordFault>
    requires { 0 < length label.now }
    ensures name { OnOk result (IsName label.now) }
    ensures short { OnOk result (nat_lt most_name_bytes (name_bytes label.now) ≡ false) }
    ensures whole { OnOk result (nat_lt (name_bytes label.now) (length label.now) ≡ false) }
    ensures fault { IfErr result (λ f. (all : List Use) → fault_of number label.now all ≡ Some f) }
{
    let size = name_len(label);
    if size > MOST_NAME_BYTES {
        return Err(WordFault::LongName(number));
    }
    if size < label.len() {
        return Err(WordFault::BadByte(number));
    }
    Ok(())
}

// The number of the label, which is added where it is new.
pub(crate) fn label_at(builder: &mut LtsBuilder, name: &str, number: u32) -> Result<u32, WordFault>
    requires { IsName name.now }
    ensures added { OnOk result (builder.new ≡ with_label builder.old name.now) }
    ensures at { IfOk result (λ t. slice_get builder.new.label_names t ≡ Some name.now) }
    ensures few { OnOk result (length builder.old.label_names ≤ most_labels → length builder.new.label_names ≤ most_labels) }
    ensures fault { IfErr result (λ f. f ≢ NoMemory → (f ≡ fault.TooManyLabels number) × (most_labels < length (with_new bytes_eq builder.old.label_names name.now))) }
{
    match add_label(builder, name) {
        Ok(t) => Ok(t),
        Err(BuildFault::TooManyLabels) => Err(WordFault::TooManyLabels(number)),
        Err(BuildFault::NoMemory) => Err(WordFault::NoMemory),
        Err(_) => unreachable!(),
    }
}

// The index of a step, and whether it is new, and so the last one.
pub(crate) fn index_of(
    steps: &mut IndexSet<(u32, u32)>,
    state: u32,
    label: u32,
) -> Result<(usize, bool), AllocFailed<(u32, u32)>>
    ensures at { IfOk result (λ r. slice_get steps.new.keys r.0 ≡ Some (state, label)) }
    ensures within { IfOk result (λ r. r.0 ≤ length steps.old.keys) }
    ensures known { IfOk result (λ r. r.1 ≡ false → steps.new.keys ≡ steps.old.keys) }
    ensures new { IfOk result (λ r. r.1 ≢ false → (r.0 ≡ length steps.old.keys) × (steps.new.keys ≡ steps.old.keys ++ (state, label) ∷ []) × ¬ Contains steps.old.keys (state, label)) }
{
    Ok(steps.insert_full((state, label))?)
}

// The name of a state.
pub(crate) fn state_name(alloc: Global, state: u32) -> Result<String, AllocError>
    ensures { IfOk result (λ name. string_bytes name ≡ 115 ∷ decimal state) }
{
    let mut buffer = Buffer::new();
    let mut name = String::from_str(alloc, "s")?;
    name.push_str(buffer.format(state))?;
    Ok(name)
}
