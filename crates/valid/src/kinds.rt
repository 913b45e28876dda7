// The counts, and the kinds: their marks and their exponents.
ghost use Rattle.std.specs.Prelude.{◌≡◌, ◌<◌, ◌≤◌};
ghost use Rattle.laws.specs.Ranges.{all};
ghost use Rattle.rules.specs.Table as T;

use crate::exponents::{all_whole, exponents_fine};
use crate::marks::{all_marks, link_fine, marks_fine};
use table::{KIND, KINDS, word};

// The counts, and the dimensionless and the time kind.
#[tactic(auto, unfolding(rules::specs::Table::head_fine))]
pub(crate) fn head_fine(t: &[u32]) -> bool
    ensures { result ≡ T.head_fine t.now }
{
    let n = word(t, 0);
    (n <= 240) & (word(t, 1) <= 400) & link_fine(word(t, 2), n) & link_fine(word(t, 3), n)
}

// Kind k, whose words may be missing: they are lent, of any length.
#[tactic(auto, using(crate::proofs::Ands::ands), unfolding(rules::specs::Table::kind_fine))]
fn kind_fine(t: &[u32], k: usize) -> bool
    requires { k < 240 }
    ensures { result ≡ T.kind_fine t.now k }
{
    let p = KINDS + KIND * k;
    if !marks_fine(t, p) {
        return false;
    }
    exponents_fine(t, p)
}

// One kind after the other.
fn each_fine(t: &[u32], n: usize) -> bool
    requires { n ≤ 240 }
    ensures { result ≡ all (T.kind_fine t.now) n }
{
    for k in 0..n {
        if !kind_fine(t, k) {
            return false;
        }
    }
    true
}

// Where all exponents are whole numbers, nothing but the marks is left to test: some 42 instructions a kind, exponents and marks together. It needs the
// words to be there; each kind by itself is for the rest, since words are lent, of any length. With `each_fine` alone a call over the largest catalog
// takes some 17,000 instructions more, where a lone product takes 25,900 in all.
#[tactic(auto, using(crate::proofs::Wholly::marks_left))]
pub(crate) fn kinds_fine(t: &[u32], n: usize) -> bool
    requires { n ≤ 240 }
    ensures { result ≡ all (T.kind_fine t.now) n }
{
    if t.len() < KINDS + KIND * n {
        return each_fine(t, n);
    }
    if !all_whole(t, n) {
        return each_fine(t, n);
    }
    all_marks(t, n)
}
