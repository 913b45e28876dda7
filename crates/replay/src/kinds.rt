// A stored kind compared with the words t of a kind of the table: role, grade, flag, how many bases are there, three links, and then six bytes for
// each base.
ghost use Rattle.std.specs.Prelude.{◌≡◌};
ghost use Rattle.replay.specs.Compiled as C;

use dimension::{bits32, signed16};
use numbers::{byte_at, u16_at};
use slices::after;
use table::{DIFFERENCE, FLAG, GRADE, RATE, ROLE, TARGET, word};

// Which of the stored bases base b is, if it is there.
fn base_of(s: &[u8], b: u16) -> Option<u8>
    ensures { result ≡ C.base_of s.now b }
{
    (0..byte_at(s, 3)).find(|j| u16_at(s, 10 + 6 * usize::from(*j)) == b)
}

// The bits of a 16-bit numerator in 32.
#[tactic(auto, using(crate::proofs::Widened::widening))]
fn widened(w: u16) -> u32
    ensures { result ≡ C.widened w }
{
    bits32(signed16(w))
}

// Whether the words begin with these two.
#[tactic(auto, unfolding(crate::specs::Compiled::pair_as))]
pub(crate) fn is_pair(t: &[u32], first: u32, second: u32) -> bool
    ensures { result ≡ C.pair_as t.now first second }
{
    (word(t, 0) == first) & (word(t, 1) == second)
}

// The exponent of stored base j.
#[tactic(auto, unfolding(crate::specs::Compiled::stored_pair))]
fn is_stored(s: &[u8], j: u8, t: &[u32]) -> bool
    ensures { result ≡ C.stored_pair s.now j t.now }
{
    is_pair(
        t,
        widened(u16_at(s, 12 + 6 * usize::from(j))),
        u32::from(u16_at(s, 14 + 6 * usize::from(j))),
    )
}

// That of an absent base is 0 and 1.
#[tactic(auto, unfolding(crate::specs::Compiled::exponent_as))]
fn is_exponent(s: &[u8], t: &[u32], b: u16) -> bool
    ensures { result ≡ C.exponent_as s.now t.now b }
{
    let pair = after(t, 2 * usize::from(b));
    match base_of(s, b) {
        Some(j) => is_stored(s, j, pair),
        None => is_pair(pair, 0, 1),
    }
}

fn are_exponents(s: &[u8], t: &[u32]) -> bool
    ensures { result ≡ C.exponents_as s.now t.now }
{
    (0..12).all(|b| is_exponent(s, t, b))
}

#[tactic(auto, unfolding(crate::specs::Compiled::marks_as))]
fn are_marks(s: &[u8], t: &[u32]) -> bool
    ensures { result ≡ C.marks_as s.now t.now }
{
    (word(t, FLAG) == u32::from(byte_at(s, 2)))
        & (word(t, GRADE) == u32::from(byte_at(s, 1)))
        & (word(t, ROLE) == u32::from(byte_at(s, 0)))
}

#[tactic(auto, unfolding(crate::specs::Compiled::links_as))]
fn are_links(s: &[u8], t: &[u32]) -> bool
    ensures { result ≡ C.links_as s.now t.now }
{
    (word(t, DIFFERENCE) == u32::from(u16_at(s, 4)))
        & (word(t, TARGET) == u32::from(u16_at(s, 6)))
        & (word(t, RATE) == u32::from(u16_at(s, 8)))
}

#[tactic(auto, unfolding(crate::specs::Compiled::kind_as))]
pub(crate) fn is_kind(s: &[u8], t: &[u32]) -> bool
    ensures { result ≡ C.kind_as s.now t.now }
{
    are_marks(s, t) & are_links(s, t) & are_exponents(s, t)
}
