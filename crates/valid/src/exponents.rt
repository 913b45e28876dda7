// The exponents of a kind: each a fraction that a catalog can declare.
ghost use Rattle.std.specs.Prelude.{◌≡◌, ◌+◌, ◌*◌, ◌<◌, ◌≤◌, length};
ghost use Rattle.laws.specs.Ranges.{all};
ghost use Rattle.joined.specs.Shown.{whole_at};
ghost use Rattle.rules.specs.Table as T;
ghost use Rattle.valid.specs.Shown.{ors, raised};

use joined::whole_from;
use table::{FLAG, KIND, KINDS, exponent, word};

// The exponents of a kind whose dimensions are given. Whole ones are seen first: fractions, each seen reduced by itself, take some 1,400 instructions a
// kind. The place goes by `as`: it is bound to fit, so a `try_from` would never err.
pub(crate) fn exponents_fine(t: &[u32], p: usize) -> bool
    requires { p < 4294967296 }
    ensures { result ≡ T.exponents_fine t.now p }
{
    if word(t, p + FLAG) != 1 {
        return true;
    }
    if whole_from(t, p) {
        return true;
    }
    for b in 0..12 {
        if !exponent(t, p as u32, b).declared() {
            return false;
        }
    }
    true
}

// The bits of six words, every fourth from place p on, once m is added to each, in one word.
#[tactic(auto, using(crate::proofs::Ors::ors_none, crate::proofs::Ors::ors_next), unfolding(crate::specs::Shown::raised))]
fn fourths(t: &[u32], p: usize, m: u32) -> u32
    requires { p + 21 ≤ length t.now }
    ensures { result ≡ ors (raised t.now m p) 6 }
{
    let mut bits: u32 = 0;
    for j in 0..6 {
        bits = bits | t[p + 4 * j].wrapping_add(m);
    }
    bits
}

// Whether the exponents of n kinds, all of them there, are whole numbers in their range, given or not. A numerator is in its range where 32,768 more
// fits 16 bits, and a denominator is 1 where one less has no bit; so nothing is asked before the end. The four words that are gathered into are
// for four words that follow one another: they become one vector, 21 instructions a kind. With `== 1` for some of them, or a mask, they take two to four
// times as many.
pub(crate) fn all_whole(t: &[u32], n: usize) -> bool
    requires { 16 + 32 * n ≤ length t.now }
    ensures { result ≡ all (λ k. all (whole_at t.now (T.kind_place k)) 12) n }
{
    let mut a: u32 = 0;
    let mut b: u32 = 0;
    let mut c: u32 = 0;
    let mut d: u32 = 0;
    for k in 0..n {
        let p = KINDS + KIND * k;
        a = a | fourths(t, p, 32768);
        b = b | fourths(t, p + 1, 4294967295);
        c = c | fourths(t, p + 2, 32768);
        d = d | fourths(t, p + 3, 4294967295);
    }
    ((a | c) < 65536) & ((b | d) == 0)
}
