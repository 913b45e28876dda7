// The same formula over two catalogs: what two runs return, of which specs/Returned says demand 3.
#![tactic(auto)]

mod runs;

pub use runs::{Both, Called, run, run_both};
