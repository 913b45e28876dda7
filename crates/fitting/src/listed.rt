// The kinds that fit dimensions at a grade, listed.
ghost use Rattle.std.specs.Prelude.{◌≡◌, ◌≤◌, length};
ghost use Rattle.laws.specs.Ranges.{picked};
ghost use Rattle.rules.specs.Kinds as K;
ghost use Rattle.rules.specs.Table.{kinds_of, dims_from};
ghost use Rattle.fitting.specs.Shown.{at, listed, room_listed};

use crate::compared::pivot;
use crate::kind::fits;
use dimension::Dimensions;
use table::{kind_count, words_of};

// Lists those of the first n kinds that fit from the front of the lent list: there is no heap, so it has no length of its own. Where the next goes is
// counted: of a list written through `iter_mut`, by `next` or zipped with the kinds that fit, nothing is known at the end, and the proof doesn't close.
#[tactic(auto, using(laws::proofs::Picked::picks))]
fn list(t: &[u32], w: &[u32], g: u32, n: u16, twins: &mut [u16])
    requires { n ≤ length twins.old }
    ensures { twins.new ≡ listed (picked (K.fits (kinds_of t.now) (at (dims_from w.now 0) g)) n) twins.old }
{
    let first = pivot(w);
    let mut count: usize = 0;
    for k in 0..n {
        if fits(t, k, w, g, first) {
            twins[count] = k;
            count += 1;
        }
    }
}

// The kinds that fit, ascending, from the front of the lent list; a list under 240 entries stays as it was.
#[tactic(auto, using(crate::proofs::Room::few_kinds))]
pub fn list_candidates(t: &[u32], d: Dimensions, g: u32, twins: &mut [u16])
    ensures { twins.new ≡ room_listed (K.candidates (kinds_of t.now) (at d g)) twins.old }
{
    if twins.len() < 240 {
        return;
    }
    let w = words_of(d);
    list(t, &w, g, kind_count(t), twins);
}
