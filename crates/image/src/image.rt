// Refusals 1, 5, 2, 3 and 4: what an image and the table lent for it are refused for.
ghost use Rattle.std.specs.Prelude.{◌≡◌, false};
ghost use Rattle.rules.specs.Image.{length_wrong, length_check, readable, image_check, lent_check};
ghost use Rattle.error.specs.Shown.{fine};

use crate::blocks::wrong_among;
use crate::layout::wrong_byte;
use error::{Error, Fault};
use numbers::u32_at;

#[tactic(auto, unfolding(rules::specs::Image::length_wrong))]
fn length_wrong(image: &[u8]) -> bool
    ensures { result ≡ length_wrong image.now }
{
    let n = image.len();
    (n == 0) | (n % 512 != 0) | (61952 < n)
}

// 1: the length of the image.
#[tactic(auto, using(crate::proofs::Refused::refusals))]
fn check_length(image: &[u8]) -> Result<(), Fault>
    ensures { result ≡ fine (length_check image.now) }
{
    if length_wrong(image) {
        return Err(Error::ImageLength(image.len()).at(0));
    }
    Ok(())
}

// 2, 3, 4: the lowest wrong block, the schema, the lowest wrong byte.
#[tactic(auto, using(crate::proofs::Refused::refusals, crate::proofs::Refused::lengths))]
fn check_readable(image: &[u8]) -> Result<(), Fault>
    requires { length_wrong image.now ≡ false }
    ensures { result ≡ fine (readable image.now) }
{
    let n = image.len() / 512;
    if let Some(b) = wrong_among(image, n) {
        return Err(Error::WrongBlock(b).at(b));
    }
    let schema = u32_at(image, 4);
    if schema != 4 {
        return Err(Error::Schema(schema).at(0));
    }
    if let Some(i) = wrong_byte(image, n) {
        return Err(Error::WrongByte(i).at(i));
    }
    Ok(())
}

// 1, 2, 3, 4: whether the image can be read, whatever table is lent.
#[tactic(auto, using(crate::proofs::Refused::refusals, crate::proofs::Refused::lengths))]
pub fn check_image(image: &[u8]) -> Result<(), Fault>
    ensures { result ≡ fine (image_check image.now) }
{
    check_length(image)?;
    check_readable(image)
}

// 1, 5, 2, 3, 4: the image, and the length of the table lent for its compilation.
#[tactic(auto, using(crate::proofs::Refused::refusals, crate::proofs::Refused::lengths))]
pub fn check_lent(image: &[u8], room: usize) -> Result<(), Fault>
    ensures { result ≡ fine (lent_check image.now room) }
{
    check_length(image)?;
    if room < 9296 {
        return Err(Error::Short(room).at(0));
    }
    check_readable(image)
}
