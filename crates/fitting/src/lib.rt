// Whether a kind fits dimensions at a grade, and those that do: the only one, how many, listed, or seen from one of them. All is read from the table's
// words, for every list of words. Dimensions and grade go one by one: the struct of both, `Graded`, is what a derivation answers and stands in `derive`,
// above this crate, and inside it the dimensions are their words, made once for a search.
#![tactic(auto)]

mod beside;
mod compared;
mod kind;
mod listed;
mod sought;

pub use beside::{Beside, seen_from};
pub use kind::carries;
pub use listed::list_candidates;
pub use sought::{Fit, only_fit, twins_from};
