//! Numbers in lines.
ghost use Rattle.std.specs.Prelude.{◌≡◌, ◌<◌, ◌≤◌, ◌^◌, IsTrue, ◌↔◌, IfSome, IfNone, List, [], ◌∷◌, length, slice_index, decimal, ℤ, nat_abs};
ghost use Rattle.std.specs.Fmt.{signed_decimal};
ghost use Rattle.rg_cert.specs.Numerals.{IsPlain, IsNumeral};
ghost use Rattle.rg_cert_data.specs.Certificates.{IsMultiplierInRange, IsSplitInRange};
ghost use Rattle.rg_cert.specs.Lines.{IsFieldInRange, Field.number as number_field, Range.multiplier as multiplier_range, Range.split_value as split_range, Range.depth as depth_range};

use rg_text::are_digits;
use std::str;

// Whether a 0 comes before other digits.
fn begins_with_zero(digits: &[u8]) -> bool
    ensures { IsTrue result ↔ ((1 < length digits.now) × (slice_index digits.now 0 ≡ 48)) }
{
    digits.len() > 1 && digits[0] == b'0'
}

// Whether the text is digits without a 0 before others.
fn is_plain(digits: &[u8]) -> bool
    ensures { IsTrue result ↔ IsPlain digits.now }
{
    if digits.is_empty() {
        return false;
    }
    if begins_with_zero(digits) {
        return false;
    }
    are_digits(digits)
}

// Whether the text is 0 alone.
fn is_zero(digits: &[u8]) -> bool
    ensures { IsTrue result ↔ (digits.now ≡ 48 ∷ []) }
{
    digits == b"0".as_slice()
}

// Whether the text is a number, with `-` or without.
pub(crate) fn is_numeral(text: &[u8]) -> bool
    ensures { IsTrue result ↔ ((z : ℤ) × IsNumeral text.now z) }
{
    match text.strip_prefix(b"-") {
        Some(digits) => is_plain(digits) && !is_zero(digits),
        None => is_plain(text),
    }
}

// The number that the text writes; None where it doesn't fit 128 bits.
pub(crate) fn number(text: &[u8]) -> Option<i128>
    requires { (z : ℤ) × IsNumeral text.now z }
    ensures some { IfSome result (IsNumeral text.now) }
    ensures none { IfNone result ((z : ℤ) → IsNumeral text.now z → 2 ^ 127 ≤ nat_abs z) }
{
    match str::from_utf8(text) {
        Ok(digits) => match digits.parse::<i128>() {
            Ok(z) => Some(z),
            Err(_) => None,
        },
        Err(_) => None,
    }
}

// A multiplier.
pub(crate) fn multiplier(text: &[u8]) -> i128
    requires { IsFieldInRange (number_field multiplier_range) text.now }
    ensures in_range { IsMultiplierInRange result }
    ensures text { text.now ≡ signed_decimal result }
{
    number(text).unwrap()
}

// The number of a split.
pub(crate) fn split_value(text: &[u8]) -> i64
    requires { IsFieldInRange (number_field split_range) text.now }
    ensures in_range { IsSplitInRange result }
    ensures text { text.now ≡ signed_decimal result }
{
    number(text).unwrap() as i64
}

// The depth of a split.
pub(crate) fn depth(text: &[u8]) -> u32
    requires { IsFieldInRange (number_field depth_range) text.now }
    ensures { text.now ≡ decimal result }
{
    number(text).unwrap() as u32
}
