// The arithmetic of kinds over a table's words: sums, products, powers, and scaling by a number. The words are taken to be a table, but there is an
// answer for all words. Nothing lent is written: a refusal names the twins, and who has the list lists them.
#![tactic(auto)]

mod codes;
mod powers;
mod products;
mod sums;

pub use codes::{combine, combined};
pub use powers::{inexact_power, power};
pub use products::product;
pub use sums::{added, agree, scaled, subtracted};
