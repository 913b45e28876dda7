// A formula's tokens, and where a formula is malformed. Every function answers for every byte sequence; what lies past the end is 0.
#![tactic(auto)]

mod shape;
mod token;

pub use shape::{good_length, malformed};
pub use token::{Binary, Token, Unary, token_at, token_count};
