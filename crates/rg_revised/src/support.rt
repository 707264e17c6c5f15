//! The indices at which the numbers of a row of the table aren't 0, where they are known.

ghost use Rattle.std.specs.Prelude.{◌≡◌, ℕ, List, ℤ, IsTrue};
ghost use Rattle.rg_revised.specs.Few.{AreFew};
ghost use Rattle.rg_revised.specs.Supports.{IsSupport, AreSupports};

// How many indices are listed at most.
const MOST: usize = 8;

/// What is known of the indices at which a row's numbers aren't 0.
#[derive(Clone, Copy)]
pub(crate) enum Look {
    /// Nothing: the row was written, and not read since.
    Written,
    /// Nothing: the row was written, and read once since.
    ReadOnce,
    /// Nothing: there were too many once, and they aren't looked for any more.
    Many,
    /// They are listed.
    Listed,
}

/// What is known of the indices at which a row's numbers aren't 0. If they are listed, they are the first `count` of
/// the indices.
#[derive(Clone, Copy)]
pub(crate) struct Support {
    pub(crate) look: Look,
    pub(crate) indices: [usize; MOST],
    pub(crate) count: usize,
}

impl Support {
    /// Returns one that knows nothing.
    pub(crate) fn unknown() -> Support
        ensures { (row : List ℤ) → IsSupport row result }
    {
        Support {
            look: Look::Written,
            indices: [0; MOST],
            count: 0,
        }
    }

    /// Forgets the indices, since the row is written.
    pub(crate) fn forget(&mut self)
        ensures { (row : List ℤ) → IsSupport row self.new }
    {
        match self.look {
            Look::Many => {}
            _ => self.look = Look::Written,
        }
    }

    // Lists the indices of the row, if they are few.
    fn list(&mut self, row: &[i64]) -> bool
        ensures { IsTrue result → AreFew row.now self.new.indices self.new.count }
    {
        self.count = 0;
        for n in 0..row.len() {
            if row[n] != 0 {
                if self.count >= MOST {
                    return false;
                }
                self.indices[self.count] = n;
                self.count += 1;
            }
        }
        true
    }

    /// Returns whether the indices of a row that is read now are listed. They are looked for when it is read for the
    /// second time.
    pub(crate) fn is_listed(&mut self, row: &[i64]) -> bool
        requires { IsSupport row.now self.old }
        ensures right { IsSupport row.now self.new }
        ensures listed { IsTrue result → AreFew row.now self.new.indices self.new.count }
    {
        match self.look {
            Look::Listed => true,
            Look::Many => false,
            Look::Written => {
                self.look = Look::ReadOnce;
                false
            }
            Look::ReadOnce => {
                let listed = self.list(row);
                self.look = if listed { Look::Listed } else { Look::Many };
                listed
            }
        }
    }
}

/// Forgets the supports of all rows.
pub(crate) fn forget_supports(supports: &mut [Support])
    ensures { (width : ℕ) (table : List ℤ) → AreSupports width table supports.new }
{
    for t in 0..supports.len() {
        supports[t].look = Look::Written;
    }
}
