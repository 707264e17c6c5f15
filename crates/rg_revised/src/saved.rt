//! Copies of relations, from which a descent goes on later.

ghost use Rattle.std.specs.Prelude.{◌≡◌, length, pos, ◌≤ℤ◌};

use crate::basis::Basis;
use crate::room::Room;
use std::marker::Model;

/// A copy of the relations of a dictionary. The dictionary can be given them again later, and a descent goes on from
/// there.
///
/// The contracts speak of the systems whose relations it has, by `IsSavedAt system s`.
#[derive(Drop)]
pub struct Saved {
    pub(crate) basis: Basis,
    pub(crate) room: Room,
}

impl Model for Saved {
    ghost use Rattle.std.specs.Prelude.{length, unsigned_abs, pos, ◌≤ℤ◌};
    ghost use Rattle.rg_revised.specs.View.{SavedState};

    ghost Value = { SavedState };

    ghost view = { λ a. record { columns = length a.basis.slots; basis = a.basis; norm = a.room.norm; most = unsigned_abs a.room.most; long = a.room.long } };

    ghost invariant = { λ a. pos 0 ≤ℤ a.room.most };
}
