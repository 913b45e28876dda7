// Whether a kind carries dimensions and a grade, and whether it fits. The dimensions are told by their words.
ghost use Rattle.std.specs.Prelude.{◌≡◌};
ghost use Rattle.rules.specs.Kinds as K;
ghost use Rattle.rules.specs.Table.{kinds_of, dims_from};
ghost use Rattle.fitting.specs.Shown.{at};

use crate::compared::{same_exponents, same_word};
use dimension::Dimensions;
use table::{
    DIFFERENCE, FLAG, GRADE, KIND, KINDS, grade_of, is_resolved, kind_count, word, words_of,
};

// Whether kind k has this grade and the dimensions whose words are w. Whether its dimensions are given is asked apart from them: their words are
// compared, and no dimensions are made.
#[tactic(auto, using(crate::proofs::Carried::carried))]
fn carries_words(t: &[u32], k: u16, w: &[u32], g: u32) -> bool
    ensures { result ≡ K.carries (kinds_of t.now) (at (dims_from w.now 0) g) k }
{
    if grade_of(t, k) != g {
        return false;
    }
    if !is_resolved(t, k) {
        return false;
    }
    same_exponents(t, k, w)
}

// Whether kind k has these dimensions and this grade.
pub fn carries(t: &[u32], d: Dimensions, g: u32, k: u16) -> bool
    ensures { result ≡ K.carries (kinds_of t.now) (at d g) k }
{
    let w = words_of(d);
    carries_words(t, k, &w, g)
}

// Whether kind k fits: no point does. A difference from 65,535 on is none, the table's own word: words are lent, and hold no option. By `carries_words` and
// `is_point` (proved) the count is asked three times: the same code in Rust then takes 1.00 million instructions in place of 0.98 to seek, for each of 240
// kinds, the only one like it.
pub(crate) fn fits_whole(t: &[u32], k: u16, w: &[u32], g: u32) -> bool
    ensures { result ≡ K.fits (kinds_of t.now) (at (dims_from w.now 0) g) k }
{
    if kind_count(t) <= k {
        return false;
    }
    if !same_exponents(t, k, w) {
        return false;
    }
    let p = KINDS + KIND * usize::from(k);
    (word(t, p + FLAG) == 1) & (word(t, p + GRADE) == g) & (65535 <= word(t, p + DIFFERENCE))
}

// Whether kind k fits, wherever `pivot` points: the word there is compared first. A kind that differs in it takes some 14 instructions, another some 60.
#[tactic(auto, using(crate::proofs::Worded::word_differs))]
pub(crate) fn fits(t: &[u32], k: u16, w: &[u32], g: u32, pivot: usize) -> bool
    ensures { result ≡ K.fits (kinds_of t.now) (at (dims_from w.now 0) g) k }
{
    if pivot < 24 {
        if !same_word(t, k, w, pivot) {
            return false;
        }
    }
    fits_whole(t, k, w, g)
}
