// What the program kindcheck prints: the two parts of its input, and the line for a formula's answer.
#![tactic(auto)]

// The largest image, and a byte more than the longest formula: what comes after never changes the line (proofs/Cut).
pub const ROOM: usize = 63489;

mod check;
mod input;
mod lines;
mod text;

pub use check::kindcheck;
pub use input::{formula_part, image_part};
pub use lines::line;
pub use text::Line;
