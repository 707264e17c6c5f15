//! Classes.
use rg_theory::{ALL_NETS, Class};

/// `pure`.
pub const PURE: Class = Class {
    pure: true,
    ..ALL_NETS
};

/// `plain`.
pub const PLAIN: Class = Class {
    plain: true,
    ..ALL_NETS
};

/// `safe`.
pub const SAFE: Class = Class {
    bound: Some(1),
    ..ALL_NETS
};

/// `2-bounded`.
pub const TWO_BOUNDED: Class = Class {
    bound: Some(2),
    ..ALL_NETS
};

/// `2-marking`.
pub const TWO_MARKING: Class = Class {
    marking: Some(2),
    ..ALL_NETS
};

/// `output-nonbranching`.
pub const NONBRANCHING: Class = Class {
    nonbranching: true,
    ..ALL_NETS
};

/// `pure,safe`.
pub const PURE_AND_SAFE: Class = Class {
    bound: Some(1),
    ..PURE
};
