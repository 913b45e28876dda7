// Why something is refused, and at which place: what every call hands back in an `Err`. The refusals get document 01's numbers here.
#![tactic(auto)]

mod cause;
mod fault;
mod op;
mod said;

pub use cause::Error;
pub use fault::Fault;
pub use op::{ABSOLUTE, COMPARE, EXACT, INEXACT, Op, op_code};
pub use said::{Said, say};
