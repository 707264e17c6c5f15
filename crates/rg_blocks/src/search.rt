//! What a search for places works with, and what it has found.
use rg_lts::Lts;
use rg_theory::Problem;
use std::alloc::Global;

/// What a search works with and doesn't change.
#[derive(Drop)]
pub struct Search<'a, S, G> {
    /// Where its memory comes from.
    pub alloc: Global,
    /// The system.
    pub lts: &'a Lts,
    /// How the problems of the system are solved.
    pub solving: &'a S,
    /// How many parts of a block run in parallel at most.
    pub jobs: u8,
    /// What is called for each number of a block.
    pub gate: &'a G,
}

/// What a search has found so far, and what it goes on with.
#[derive(Drop)]
pub struct Progress<K, W, P> {
    /// The places that are kept.
    pub kept: K,
    /// What the calling thread solves with.
    pub workspace: W,
    /// The last problem that the calling thread found refuted, with its proof.
    pub proof: Option<(Problem, P)>,
}
