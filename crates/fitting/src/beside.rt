// The kinds that fit dimensions at a grade, seen from one of them.
ghost use Rattle.std.specs.Prelude.{◌≡◌};
ghost use Rattle.laws.specs.Options.{is_some};
ghost use Rattle.laws.specs.Ranges.{first};
ghost use Rattle.rules.specs.Table.{kinds_of, dims_from};
ghost use Rattle.fitting.specs.Shown.{at, fits_beside, beside_of};

use crate::compared::pivot;
use crate::kind::{fits, fits_whole};
use dimension::Dimensions;
use table::{kind_count, words_of};

// Whether kind j is another than k, and fits; `first` is the word to compare first.
#[tactic(auto, unfolding(crate::specs::Shown::fits_beside))]
fn fits_beside(t: &[u32], w: &[u32], g: u32, first: usize, k: u16, j: u16) -> bool
    ensures { result ≡ fits_beside (kinds_of t.now) (at (dims_from w.now 0) g) k j }
{
    if j == k {
        return false;
    }
    fits(t, j, w, g, first)
}

// Whether another kind than k, of the first n, fits. It ends at the first that does.
#[tactic(auto, using(laws::proofs::First::first_none, laws::proofs::First::first_next, laws::proofs::First::first_here))]
fn another(t: &[u32], w: &[u32], g: u32, k: u16, n: u16) -> bool
    ensures { result ≡ is_some (first (fits_beside (kinds_of t.now) (at (dims_from w.now 0) g) k) n) }
{
    let first = pivot(w);
    for j in 0..n {
        if fits_beside(t, w, g, first, k, j) {
            return true;
        }
    }
    false
}

// What is seen of the kinds that fit from one of them, k. An enum of its own, since neither Option nor Result has three cases.
#[derive(Clone, Copy)]
pub enum Beside {
    Alone,
    Others,
    Unfit,
}

// Whether kind k fits, and whether others do.
pub fn seen_from(t: &[u32], d: Dimensions, g: u32, k: u16) -> Beside
    ensures { result ≡ beside_of (kinds_of t.now) (at d g) k }
{
    let w = words_of(d);
    if !fits_whole(t, k, &w, g) {
        return Beside::Unfit;
    }
    if another(t, &w, g, k, kind_count(t)) {
        return Beside::Others;
    }
    Beside::Alone
}
