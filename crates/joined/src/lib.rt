// The dimensions of products and quotients, and the words of their exponents: whole numbers, which nearly all exponents are, are added as they stand
// in the table's words, in one loop that tests nothing; others as fractions, each sum in lowest terms. With fractions alone every sum would look for a
// common divisor that whole numbers don't have: to see twelve fractions reduced takes some 1,400 instructions (docs/SPEED.md).
#![tactic(auto)]

mod whole;
mod words;

pub use whole::whole_from;
pub use words::{is_quotient, joined, joined_words};
