//! Computations that stop at their first step out of range, as definitions: the steps and their order are stated, and
//! a computation is given by its results. With them are the coefficients of the free labels, which rows of cases and
//! cycle equations share. The definitions are in `specs/`, the lemmas in `proofs/`.
#![tactic(auto)]
