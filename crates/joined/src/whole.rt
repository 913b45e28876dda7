// Exponents that are whole numbers.
ghost use Rattle.std.specs.Prelude.{◌≡◌, ℕ, true, ◌+◌, ◌<◌, ◌≤◌, length, take, drop, MatchOption, IfSome};
ghost use Rattle.laws.specs.Ranges.{all};
ghost use Rattle.rules.specs.Table as T;
ghost use Rattle.joined.specs.Shown.{whole_at, whole_from, dims_at};

use slices::after;
use table::{KIND, KINDS, is_resolved};

// The words of twelve exponents, each a whole number in its range.
#[derive(Clone, Copy)]
pub(crate) struct Whole<'a> {
    pub(crate) words: &'a [u32; 24],
    ghost whole: { all (whole_at words.now 0) 12 ≡ true },
    ghost bits: { (i : ℕ) → T.word words.now i < 4294967296 },
}

// Whether exponent b of these is a whole number in its range: of such a one nothing is to be reduced.
#[tactic(auto, unfolding(crate::specs::Shown::whole_at))]
fn whole_at(words: &[u32; 24], b: usize) -> bool
    requires { b < 12 }
    ensures { result ≡ whole_at words.now 0 b }
{
    let x = words[2 * b];
    (words[2 * b + 1] == 1) & ((x < 32768) | (4294934528 <= x))
}

// Whether all twelve are. None of them ends the loop, so that several are looked at at once: the same code in Rust takes 55 instructions, and 85 where the
// first that isn't whole ends the loop.
#[tactic(auto, using(laws::proofs::All::everys))]
fn all_whole(words: &[u32; 24]) -> bool
    ensures { result ≡ all (whole_at words.now 0) 12 }
{
    let mut whole = true;
    for b in 0..12 {
        whole = whole & whole_at(words, b);
    }
    whole
}

// The words of the twelve exponents that stand from place p on, if they are there.
#[tactic(auto, using(crate::proofs::Wholes::words_found))]
fn words_from(t: &[u32], p: usize) -> Option<&[u32; 24]>
    ensures { MatchOption result (length t.now < p + 24) (λ w. (p + 24 ≤ length t.now) × (w.now ≡ take 24 (drop p t.now))) }
{
    after(t, p).first_chunk::<24>()
}

// Whether twelve whole numbers in their range stand from place p on.
#[tactic(auto, using(crate::proofs::Wholes::wholes))]
pub fn whole_from(t: &[u32], p: usize) -> bool
    ensures { result ≡ whole_from t.now p }
{
    let Some(words) = words_from(t, p) else {
        return false;
    };
    all_whole(words)
}

// The exponents of a kind whose dimensions are given, if all are whole.
#[tactic(auto, using(crate::proofs::Wholes::dims_whole, crate::proofs::Wholes::bits_cut))]
pub(crate) fn whole_of(t: &[u32], k: u16) -> Option<Whole<'_>>
    ensures { IfSome result (λ w. T.dims_from w.words.now 0 ≡ dims_at (T.kinds_of t.now) k) }
{
    if !is_resolved(t, k) {
        return None;
    }
    let words = words_from(t, KINDS + KIND * usize::from(k))?;
    if !all_whole(words) {
        return None;
    }
    Some(Whole { words })
}
