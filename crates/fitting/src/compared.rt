// The words of a kind compared with those of dimensions, w, and the word of w that tells most kinds apart.
ghost use Rattle.std.specs.Prelude.{◌≡◌, ◌+◌, ◌<◌, ◌≤◌, length};
ghost use Rattle.laws.specs.Ranges.{all};
ghost use Rattle.dimension.specs.Dimension as D;
ghost use Rattle.dimension.specs.Fraction as F;
ghost use Rattle.rules.specs.Table as T;
ghost use Rattle.fitting.specs.Shown.{same_word, is_there, pivot_of};

use table::{KIND, KINDS, word};

// Whether the exponent of base b from place p on is that of w: their words are compared, and no fraction is made of them.
#[tactic(auto, using(table::proofs::ExponentsInWords::pair_same))]
fn same_pair(t: &[u32], p: usize, w: &[u32], b: usize) -> bool
    requires p_bound { p < 4294967296 }
    requires b_bound { b < 12 }
    ensures { result ≡ F.equal (T.exponent_from t.now p b) (T.exponent_from w.now 0 b) }
{
    let x = word(t, p + 2 * b);
    let m = word(t, p + 2 * b + 1);
    let y = word(w, 2 * b);
    let n = word(w, 2 * b + 1);
    (x == y) & (m == n)
}

// Whether the exponents from place p on are those of w, for words that may be missing: they are lent, of any length. It ends at the first pair that
// differs.
#[tactic(auto, using(table::proofs::ExponentsInWords::sames))]
fn same_from(t: &[u32], p: usize, w: &[u32]) -> bool
    requires { p < 4294967296 }
    ensures { result ≡ D.equal (T.dims_from t.now p) (T.dims_from w.now 0) }
{
    for b in 0..12 {
        if !same_pair(t, p, w, b) {
            return false;
        }
    }
    true
}

// Whether the 24 words from place p on, all of them there, are those of w. No word ends the loop and no place is tested: a kind with all of its words
// compared takes a search that lists or counts some 60 instructions. A compilation of the largest catalog takes 1.48 million so, 1.54 with `all` over the
// places, 1.82 with `==` of two arrays, 1.84 with `==` of two slices, and 1.75 with `same_from` alone.
#[tactic(auto, using(laws::proofs::All::everys), unfolding(crate::specs::Shown::same_word))]
fn same_words(t: &[u32], p: usize, w: &[u32]) -> bool
    requires p_in_bounds { p + 24 ≤ length t.now }
    requires in_bounds { 24 ≤ length w.now }
    ensures { result ≡ all (same_word t.now p w.now) 24 }
{
    let mut same = true;
    for i in 0..24 {
        same = same & (t[p + i] == w[i]);
    }
    same
}

// Whether the words of kind k stand for the dimensions that w's stand for: at once where all are there, else pair by pair.
pub(crate) fn same_exponents(t: &[u32], k: u16, w: &[u32]) -> bool
    ensures { result ≡ D.equal (T.dims_from t.now (T.kind_place k)) (T.dims_from w.now 0) }
{
    let p = KINDS + KIND * usize::from(k);
    if (p + 24 <= t.len()) & (24 <= w.len()) {
        return same_words(t, p, w);
    }
    same_from(t, p, w)
}

// Whether word i of kind k is that of w.
#[tactic(auto, unfolding(crate::specs::Shown::same_word))]
pub(crate) fn same_word(t: &[u32], k: u16, w: &[u32], i: usize) -> bool
    requires { i < 24 }
    ensures { result ≡ same_word t.now (T.kind_place k) w.now i }
{
    word(t, KINDS + KIND * usize::from(k) + i) == word(w, i)
}

// Whether the numerator of base b is not zero.
#[tactic(auto, unfolding(crate::specs::Shown::is_there))]
fn is_there(w: &[u32], b: usize) -> bool
    requires { b < 12 }
    ensures { result ≡ is_there w.now b }
{
    word(w, 2 * b) != 0
}

// The place of the first numerator that is not zero. 0 stands for all zero too and not only for the first: any place may be compared first, so no
// caller asks which, and an option would be opened to the same 0.
#[tactic(auto, using(laws::proofs::First::scan), unfolding(crate::specs::Shown::pivot_of))]
pub(crate) fn pivot(w: &[u32]) -> usize
    ensures { result ≡ pivot_of w.now }
{
    for b in 0..12 {
        if is_there(w, b) {
            return 2 * b;
        }
    }
    0
}
