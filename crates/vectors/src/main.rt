// Stored exponents and damaged images (docs/VECTORS.md), asked again of the libraries here: for each file a line that says how many agree, of how
// many.
#![tactic(auto)]

mod exponents;
mod images;
mod walk;

use std::io;

fn main(rt: HostRuntime) -> io::Result<()> {
    let tally = exponents::replayed(&rt)?;
    println!(rt; "exponents {tally}")?;
    let tally = images::replayed(&rt)?;
    println!(rt; "images {tally}")
}
