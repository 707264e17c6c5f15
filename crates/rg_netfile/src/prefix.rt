//! The prefix of the names of places.
ghost use Rattle.std.specs.Prelude.{◌≡◌, IfOk};
ghost use Rattle.std.specs.List.{list_any};
ghost use Rattle.rg_net.specs.NetText.{blocks, candidate, place_prefix};

use itoa::Buffer;
use rg_lts::Lts;
use rg_memory::NoMemory;
use rg_text::are_digits;
use std::alloc::Global;

// The first of `p`, `p1_`, `p2_`, .., `p256_` that no label blocks.
pub(crate) fn free_prefix(alloc: Global, lts: &Lts) -> Result<Vec<u8>, NoMemory>
    ensures { IfOk result (λ prefix. prefix.items ≡ place_prefix lts.now.label_names) }
{
    for k in 0..257u32 {
        let prefix = candidate(alloc, k)?;
        if !is_blocked(lts, &prefix) {
            return Ok(prefix);
        }
    }
    candidate(alloc, 0)
}

// The k-th prefix: `p`, then `p1_`, `p2_` and so on.
fn candidate(alloc: Global, k: u32) -> Result<Vec<u8>, NoMemory>
    ensures { IfOk result (λ prefix. prefix.items ≡ candidate k) }
{
    let mut prefix = Vec::new(alloc);
    prefix.push(b'p')?;
    if k != 0 {
        let mut buffer = Buffer::new();
        prefix.extend_from_slice(buffer.format(k).as_bytes())?;
        prefix.push(b'_')?;
    }
    Ok(prefix)
}

// Whether a label blocks the prefix.
fn is_blocked(lts: &Lts, prefix: &[u8]) -> bool
    ensures { result ≡ list_any (blocks prefix.now) lts.now.label_names }
{
    for t in 0..lts.labels() {
        if blocks(prefix, lts.label_name(t).as_bytes()) {
            return true;
        }
    }
    false
}

// Whether the label is the prefix followed by digits alone, at least one.
fn blocks(prefix: &[u8], label: &[u8]) -> bool
    ensures { result ≡ blocks prefix.now label.now }
{
    match label.strip_prefix(prefix) {
        Some(number) => !number.is_empty() && are_digits(number),
        None => false,
    }
}
