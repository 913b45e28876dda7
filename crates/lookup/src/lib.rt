// Lone lookups over lent words: a product, sum or power, and the twins that a refusal names.
#![tactic(auto)]

mod lent;
mod lone;
mod twins;

pub use lent::check_lent;
pub use lone::{Exponent, combine, power};
pub use twins::{list_twins, op_of};
