// The checks of a catalog image: its length, block sums, schema and layout. Every byte sequence is answered.
#![tactic(auto)]

mod blocks;
mod image;
mod layout;
mod search;

pub use image::{check_image, check_lent};
