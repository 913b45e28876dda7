// Which kind `left op right` is, from dimensions and grade: the derivation, and the kind that it comes to. All is read from the table's words, for
// every list of words.
#![tactic(auto)]

mod derivation;
mod known;
mod resolution;

pub use derivation::{Graded, derive, ruled};
pub use known::{known_kind, neutral_power};
pub use resolution::{Several, resolve_by};
