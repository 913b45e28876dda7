// The image, as long as its counts say, and the formula, which is the rest.
ghost use Rattle.std.specs.Prelude.{◌≡◌};
ghost use Rattle.rules.specs.Report as rule;

use catalog::{kind_count, row_count};
use slices::part;

// Of 121 blocks at most.
#[tactic(auto, using(crate::proofs::Parted::lengths))]
fn image_length(input: &[u8]) -> usize
    ensures { result ≡ rule.image_length input.now }
{
    let kinds = usize::from(kind_count(input));
    let rows = usize::from(row_count(input));
    // As the definition says it, which `image` asks of its own counts.
    let blocks = 1 + (kinds + 2) / 3 + (rows + 4) / 5;
    512 * blocks.min(121)
}

pub fn image_part(input: &[u8]) -> &[u8]
    ensures { result.now ≡ rule.image_part input.now }
{
    part(input, 0, image_length(input))
}

// Empty where the input ends with the image or before.
pub fn formula_part(input: &[u8]) -> &[u8]
    ensures { result.now ≡ rule.formula_part input.now }
{
    part(input, image_length(input), input.len())
}
