// Exact exponents, the dimensions made of them, and grades. Every public function answers for every input, by an equation with a definition of
// specs/; what crates above may know beyond that are the laws in proofs/.
#![tactic(auto)]

mod dimensions;
mod grade;
mod integer;
mod rational;

pub use dimensions::Dimensions;
pub use grade::{ProductOp, power_grade, product_grade};
pub use integer::{bits32, signed16, signed32};
pub use rational::{ONE, Rational, ZERO};
