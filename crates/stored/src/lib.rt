// What the stored files hold (docs/VECTORS.md): headers, exponents, packed images, and answers, which are compared with those given here.
#![tactic(auto)]

mod answers;
mod exponents;
mod files;
mod packed;
mod tally;

pub use answers::{answer_size, is_kind, is_number, is_refusal};
pub use exponents::{dimensions, exponent};
pub use files::is_group;
pub use packed::{LONGEST, unpack, unpack_section};
pub use tally::{Part, ROOM, Tally, UNREADABLE, read, room};
