// A catalog image compiled into a lent table.
#![tactic(auto)]

mod answers;
mod compiler;
mod declared;
mod ids;
mod kinds;
mod links;
mod rates;
mod rows;

pub use compiler::compile;
