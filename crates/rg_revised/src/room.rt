//! How large the numbers of a descent may grow.

ghost use Rattle.std.specs.Prelude.{◌≡◌, ◌+◌, ◌*◌, ◌^◌, ◌<◌, pos, ◌<ℤ◌, unsigned_abs, IsTrue};

/// A bound on the rows' norms, one on the numbers of the table, and whether the descent is a long one.
///
/// In a short descent the second bound stays: sums of a row with numbers up to it fit 64 bits. In a long one it is
/// the largest size that the table has: the common factor of all numbers is taken out after each exchange, and sums
/// have 128 bits.
#[derive(Clone, Copy)]
pub(crate) struct Room {
    pub(crate) norm: u64,
    pub(crate) most: i64,
    pub(crate) long: bool,
}

// The largest size of products whose difference is in range: 2^126 - 1.
const GREATEST_PRODUCT: u128 = 85_070_591_730_234_615_865_843_651_857_942_052_863;

impl Room {
    // A bound on the numbers of rows' relations.
    fn reach(self) -> u128
        requires norm { self.norm < 2 ^ 63 }
        ensures { result ≡ (self.norm + 1) * unsigned_abs self.most }
    {
        (u128::from(self.norm) + 1) * u128::from(self.most.unsigned_abs())
    }

    /// Returns whether no term of an exchange is out of range where no number of the pivot's relation is larger than
    /// `largest`.
    pub(crate) fn fits_exchange(self, largest: i64) -> bool
        requires norm { self.norm < 2 ^ 63 }
        requires positive { pos 0 <ℤ largest }
        ensures { IsTrue result → ((self.norm + 1) * unsigned_abs self.most) * unsigned_abs largest < 2 ^ 126 }
    {
        self.reach() <= GREATEST_PRODUCT / u128::from(largest.unsigned_abs())
    }
}
