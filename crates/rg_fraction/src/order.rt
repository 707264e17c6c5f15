//! The order of two fractions that are not negative.

ghost use Rattle.std.specs.Prelude.{◌≡◌, ◌*◌, ◌<◌};
ghost use Rattle.std.specs.Ordering.{nat_cmp};

use std::cmp::Ordering;

// Compares n/d with m/e: by their whole parts, or else the inverses of what is left.
pub(crate) fn compare(n: u128, d: u128, m: u128, e: u128) -> Ordering
    requires left { 0 < d }
    requires right { 0 < e }
    ensures { result ≡ nat_cmp (n * e) (m * d) }
{
    let p = n / d;
    let q = m / e;
    if p != q {
        return p.cmp(&q);
    }
    let r = n % d;
    let s = m % e;
    if r == 0 || s == 0 {
        return r.cmp(&s);
    }
    compare(e, s, d, r)
}
