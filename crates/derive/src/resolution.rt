// The kind that dimensions and a grade come to: the one that is known, the only one that fits, or that there are several or none.
ghost use Rattle.std.specs.Prelude.{◌≡◌};
ghost use Rattle.rules.specs.Kinds as K;
ghost use Rattle.rules.specs.Table.{kinds_of};
ghost use Rattle.rules.specs.Arithmetic as rule;
ghost use Rattle.fitting.specs.Shown.{at};
ghost use Rattle.derive.specs.Shown.{several_of};

use crate::known::known_kind;
use dimension::{Dimensions, ProductOp};
use fitting::{Beside, Fit, only_fit, seen_from};
use table::words_of;

// A kind, that there are several, or none: three cases, where an Option has two. Not `Fit`: `Beside::Others` names no second kind, so none can be handed on.
#[derive(Clone, Copy)]
pub enum Several {
    Is(u16),
    Many,
    Nothing,
}

// Dimensions and a grade go one by one: the signature of `resolve_by` is public and stays, so that a caller who has the two needs no `Graded`, and the
// crate `fitting` takes them apart.
// From `Fit` by a match: it is made in this one place, so a `From` is longer.
fn fitting(t: &[u32], d: Dimensions, g: u32) -> Several
    ensures { result ≡ several_of (K.candidates (kinds_of t.now) (at d g)) }
{
    let w = words_of(d);
    match only_fit(t, &w, g) {
        Fit::Only(k) => Several::Is(k),
        Fit::Second(k) => Several::Many,
        Fit::Nothing => Several::Nothing,
    }
}

// Where kind k fits, one other ends the search.
#[tactic(auto, using(crate::proofs::Fittings::seen_alone, crate::proofs::Fittings::seen_others))]
fn fitting_by(t: &[u32], d: Dimensions, g: u32, k: u16) -> Several
    ensures { result ≡ several_of (K.candidates (kinds_of t.now) (at d g)) }
{
    match seen_from(t, d, g, k) {
        Beside::Alone => Several::Is(k),
        Beside::Others => Several::Many,
        Beside::Unfit => fitting(t, d, g),
    }
}

// The kind of `left op right`, whose dimensions and grade these are, or whether several fit; k is a kind that is thought to fit.
#[tactic(auto, using(crate::proofs::Fittings::resolved_known, crate::proofs::Fittings::resolved_fitting))]
pub fn resolve_by(
    t: &[u32],
    l: u16,
    op: ProductOp,
    r: u16,
    d: Dimensions,
    g: u32,
    k: u16,
) -> Several
    ensures { result ≡ several_of (rule.resolve (kinds_of t.now) l op r (at d g)) }
{
    match known_kind(t, l, op, r) {
        Some(j) => Several::Is(j),
        None => fitting_by(t, d, g, k),
    }
}
