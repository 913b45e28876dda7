// A formula's run: token by token over a stack of at most 32 terms. The words are taken to be a table and its rows, but there is an answer for all
// words and bytes. Nothing lent is written.
#![tactic(auto)]

mod stack;
mod terms;
mod walk;

pub use terms::Term;
pub use walk::run;
