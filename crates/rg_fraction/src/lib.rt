//! Exact fractions of numbers in range, from -(2^127 - 1) to 2^127 - 1, and the elimination of an
//! entry of a row of such numbers. Where a number that has to be formed is out of range, the call
//! is refused and shows the four numbers that it would be formed from.
#![tactic(auto)]

mod binary;
mod divisor;
mod exact;
mod fold_stop;
mod fraction;
mod order;
mod row;
mod whole;

pub use divisor::gcd;
pub use fold_stop::FoldStop;
pub use fraction::Fraction;
pub use rg_integers::Wide;
pub use row::{eliminate, reduce, row_gcd};
pub use whole::{whole_product, whole_sum};
