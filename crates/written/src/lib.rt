// The words that a compilation writes. No id is looked up twice: what the ids of the kinds and of the rows name is listed first, and everything
// else about links is read from the lists; a compilation reads those of the rows too.
#![tactic(auto)]

mod kinds;
mod links;
mod marks;
mod rows;
mod whole;

pub use rows::Named;
pub use whole::{Written, table_words};
