// Refusal 2: the lowest block whose place or sum is wrong.
ghost use Rattle.std.specs.Prelude.{◌≡◌, ◌+◌, ◌*◌, ◌/◌, ◌<◌, ◌≤◌, length};
ghost use Rattle.rules.specs.Bytes.{byte, block_sum};
ghost use Rattle.rules.specs.Image.{sum_wrong};
ghost use Rattle.laws.specs.Ranges.{first};
ghost use Rattle.image.specs.Shown.{weighed};

use numbers::{u16_at, u32_at};

// What byte i of a block adds to the block's sum. The block lies within the image, so no place needs a test. That is said of the number of the block
// and not by a type: the sum is asked block by block, and a part cut for each would be an Option whose
// other case never comes. i goes by `as`: it is below 508, so a `try_from` would
// have an error that no i gives.
#[tactic(auto, unfolding(crate::specs::Shown::weighed))]
fn weight(image: &[u8], block: usize, i: usize) -> u32
    requires block_bound { (block < 1000) × (i < 508) }
    requires block_in_bounds { 512 * block + 508 ≤ length image.now }
    ensures value { result ≡ weighed image.now block i }
    ensures upper_bound { result ≤ 129540 }
{
    (i as u32 + 1) * u32::from(image[block * 512 + i])
}

#[tactic(auto, using(laws::proofs::Sum::sums), unfolding(rules::specs::Bytes::block_sum, crate::specs::Shown::weighed))]
fn block_sum(image: &[u8], block: usize) -> u32
    requires block_bound { block < 1000 }
    requires block_in_bounds { 512 * block + 508 ≤ length image.now }
    ensures { result ≡ block_sum image.now block }
{
    let mut sum: u32 = 0;
    for i in 0..508 {
        sum += weight(image, block, i);
    }
    sum
}

#[tactic(auto, unfolding(rules::specs::Image::sum_wrong))]
fn sum_wrong(image: &[u8], block: usize) -> bool
    requires block_bound { block < 1000 }
    requires block_in_bounds { 512 * block + 508 ≤ length image.now }
    ensures { result ≡ sum_wrong image.now block }
{
    (usize::from(u16_at(image, block * 512)) != block)
        | (u32_at(image, block * 512 + 508) != block_sum(image, block))
}

// The lowest wrong block of n.
#[tactic(auto, using(crate::proofs::Finds::finds))]
pub(crate) fn wrong_among(image: &[u8], n: usize) -> Option<usize>
    requires n_bound { n ≤ 1000 }
    requires n_in_bounds { 512 * n ≤ length image.now }
    ensures { result ≡ first (sum_wrong image.now) n }
{
    for b in 0..n {
        if sum_wrong(image, b) {
            return Some(b);
        }
    }
    None
}
