// The Rust's stored lookups, formulas and compilations, and stored lines of kindcheck (docs/VECTORS.md), asked again of the libraries here: for each
// file a line that says how many agree, of how many.
#![tactic(auto)]

mod compiled;
mod kinds;
mod lines;
mod pieces;
mod requests;
mod sections;

use requests::Requests;
use std::io;

// The groups of these files, in their headers. They are no enum: these two are only compared with a header; the others are matched on as well.
const COMPILATIONS: u32 = 2;

const LINES: u32 = 6;

#[tactic(auto, unfolding(crate::specs::Pieces::agreed_on))]
fn main(rt: HostRuntime) -> io::Result<()> {
    let tally = sections::replayed(&rt, "lookups.bin", Requests::Lookups)?;
    println!(rt; "lookups {tally}")?;
    let tally = sections::replayed(&rt, "formulas.bin", Requests::Formulas)?;
    println!(rt; "formulas {tally}")?;
    let tally = pieces::replayed(&rt, "compile.bin", COMPILATIONS, compiled::compared)?;
    println!(rt; "compilations {tally}")?;
    let tally = pieces::replayed(&rt, "lines.bin", LINES, lines::compared)?;
    println!(rt; "lines {tally}")
}
