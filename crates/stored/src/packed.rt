// A packed image: pairs of bytes, how many zeros and how many of the bytes after the pair, which stand for themselves.
ghost use Rattle.std.specs.Prelude.{◌≡◌, ◌+◌, ◌≤◌, length, take, drop};
ghost use Rattle.laws.specs.Ranges.{overlay};
ghost use Rattle.rules.specs.Bytes.{le4};
ghost use Rattle.stored.specs.Packed.{unpacked, in_room};

use numbers::{byte_at, u32_at};
use slices::part;

// Room for an image: one block more than one can have.
pub const LONGEST: usize = 62464;

// What the pairs stand for, written over the front of the image; the rest of it stays.
fn write(s: &[u8], image: &mut [u8])
    ensures { image.new ≡ overlay (take (length image.old) (unpacked 0 s.now)) image.old }
{
    let mut from: usize = 0;
    let mut at: usize = 0;
    let mut zeros: usize = 0;
    let mut left: usize = 0;
    // Not a `for`: a turn writes a byte or reads a pair, so neither place moves on in each.
    while at < image.len() {
        if 0 < zeros {
            image[at] = 0;
            at += 1;
            zeros -= 1;
            continue;
        }
        if s.len() <= from {
            return;
        }
        if 0 < left {
            image[at] = s[from];
            at += 1;
            from += 1;
            left -= 1;
            continue;
        }
        zeros = usize::from(byte_at(s, from));
        left = usize::from(byte_at(s, from + 1));
        from += 2;
    }
}

// The unpacked image in a lent buffer: as much of it as there is room for, and zeros after it.
#[tactic(auto, unfolding(crate::specs::Packed::in_room))]
pub fn unpack(s: &[u8], image: &mut [u8])
    ensures { image.new ≡ in_room (length image.old) (unpacked 0 s.now) }
{
    image.fill(0);
    write(s, image);
}

// The image of the section that s begins with, unpacked: the head has twelve bytes, of them four that say how many the packed image has. Answers where
// what follows the image begins, even past the end of the bytes.
pub fn unpack_section(s: &[u8], image: &mut [u8]) -> usize
    ensures value { result ≡ 12 + le4 s.now 4 }
    ensures upper_bound { result ≤ 4294967307 }
    ensures image_after { image.new ≡ in_room (length image.old) (unpacked 0 (take (le4 s.now 4) (drop 12 s.now))) }
{
    // By `as`: there is no `From` of a `u32` for `usize`.
    let packed = u32_at(s, 4) as usize;
    unpack(part(s, 12, packed), image);
    12 + packed
}
