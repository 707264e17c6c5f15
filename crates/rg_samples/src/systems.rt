//! Systems as texts, and a net.

/// One state, and the label a without an arc.
pub const DEAD: &str = ".type LTS .states s0[initial] .labels a .arcs";

/// One state, at which the label a loops.
pub const LOOP: &str = ".type LTS .states s0[initial] .labels a .arcs s0 a s0";

/// One step of the label a.
pub const STEP: &str = ".type LTS .states s0[initial] s1 .labels a .arcs s0 a s1";

/// The label a leads from each of two states to the other.
pub const THERE_AND_BACK: &str = ".type LTS .states s0[initial] s1 .labels a .arcs s0 a s1 s1 a s0";

/// The labels a and b in turn.
pub const IN_TURN: &str = ".type LTS .states s0[initial] s1 .labels a b .arcs s0 a s1 s1 b s0";

/// The label a loops at s0, and b leads from s0 to s1, where a is lost.
pub const LOOP_AND_STEP: &str =
    ".type LTS .states s0[initial] s1 .labels a b .arcs s0 a s0 s0 b s1";

/// The labels a and b in choice.
pub const CHOICE: &str = ".type LTS .states s0[initial] s1 s2 .labels a b .arcs s0 a s1 s0 b s2";

/// A net for the choice: one place keeps its token when b fires, the other when a does.
pub const CHOICE_NET: &str =
    ".type PN .places p q .transitions a b .flows a: {p, q} -> {q} b: {p, q} -> {p} .initial_marking {p, q}";

/// The cycle of a, a and b.
pub const CYCLE: &str =
    ".type LTS .states s0[initial] s1 s2 .labels a b .arcs s0 a s1 s1 a s2 s2 b s0";

/// The word a b a.
pub const ABA: &str =
    ".type LTS .states s0[initial] s1 s2 s3 .labels a b .arcs s0 a s1 s1 b s2 s2 a s3";
