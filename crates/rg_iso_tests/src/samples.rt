//! Systems as texts.

/// One state without labels.
pub(crate) const STILL: &str = ".type LTS .states s0[initial] .labels .arcs";

/// The label a leads from s0 to two states: b is lost at the one, c at the other.
pub(crate) const FORK: &str =
    ".type LTS .states s0[initial] s1 s2 s3 .labels a b c .arcs s0 a s1 s0 a s2 s0 b s3 s0 c s3 s1 b s3 s2 c s3";

/// A loop, and two states that can't be reached, at the first of which a label is lost.
pub(crate) const LOST_APART: &str =
    ".type LTS .states s0[initial] s1 s2 .labels a b .arcs s0 a s0 s1 a s2 s1 b s2";
