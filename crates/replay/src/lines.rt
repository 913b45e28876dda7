// The line that kindcheck prints for an input, compared with a stored one: its length in two bytes, and its bytes.
ghost use Rattle.std.specs.Prelude.{◌≡◌, ◌≤◌};
ghost use Rattle.laws.specs.Ranges.{all};
ghost use Rattle.replay.specs.Pieces as P;

use crate::pieces::Compared;
use numbers::{byte_at, u16_at};
use printed::Line;
use slices::after;

// Whether the first n bytes are the same, where each has zeros past its end. `==` of two slices would compare their lengths, and say something else.
fn are_bytes(s: &[u8], t: &[u8], n: usize) -> bool
    ensures { result ≡ all (P.byte_as s.now t.now) n }
{
    (0..n).all(|i| byte_at(s, i) == byte_at(t, i))
}

#[tactic(auto, unfolding(crate::specs::Pieces::line_as))]
fn is_line(s: &[u8], line: Line) -> bool
    ensures { result ≡ P.line_as s.now line }
{
    let bytes = line.bytes;
    let n = line.length;
    (usize::from(u16_at(s, 0)) == n) & are_bytes(after(s, 2), &bytes, n)
}

// Whether kindcheck prints the line that s begins with.
#[tactic(auto, unfolding(crate::specs::Pieces::printed_so))]
fn agrees(s: &[u8], input: &[u8]) -> bool
    ensures { result ≡ P.printed_so s.now input.now }
{
    is_line(s, printed::kindcheck(input))
}

// The bytes of the stored line.
#[tactic(auto, unfolding(crate::specs::Pieces::line_size))]
fn size(s: &[u8]) -> usize
    ensures value { result ≡ P.line_size s.now }
    ensures upper_bound { result ≤ 65537 }
{
    2 + usize::from(u16_at(s, 0))
}

// Both, of the answer that s begins with.
pub(crate) fn compared(s: &[u8], input: &[u8]) -> Compared
    ensures { result.agrees ≡ P.printed_so s.now input.now }
{
    Compared {
        agrees: agrees(s, input),
        size: size(s),
    }
}
