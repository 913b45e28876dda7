// Products of two kinds: one derivation, and one search for the kinds that fit. The kind is known, the only one that fits, or named by the row for
// this very left, operation and right.
// Left, operation and right go one by one, here and in the crates beside: the scope's own calls name them so, and a struct of the three would be made
// and taken apart at each call. So do the words of a product and its grade, as the calls of `fitting` take them.
// Table and rows go one by one, as they are lent: a struct would be made at each public call and opened at each read.
ghost use Rattle.std.specs.Prelude.{◌≡◌};
ghost use Rattle.laws.specs.Options.{found};
ghost use Rattle.std.specs.declared.result.Result.TheVariants.{Ok, Err};
ghost use Rattle.rules.specs.Arithmetic as rule;
ghost use Rattle.rules.specs.Refusal.{code_of};
ghost use Rattle.rules.specs.Table.{kinds_of, rows_of, dims_from};
ghost use Rattle.fitting.specs.Shown.{at, twins_from};
ghost use Rattle.error.specs.declared.cause.Error.TheVariants as cause;
ghost use Rattle.registry.specs.Shown.{looked, joined_as, fitted_as, settled_as};

use derive::{known_kind, ruled};
use dimension::ProductOp;
use error::{Error, op_code};
use fitting::{Fit, only_fit, twins_from};
use joined::joined_words;
use table::{dims_in, row_of};

// Several kinds fit, k the second of them: the row's, or 44, which returns how many there are.
#[tactic(auto, using(crate::proofs::Settled::rowed))]
fn several(
    t: &[u32],
    rows: &[u32],
    l: u16,
    op: ProductOp,
    r: u16,
    w: &[u32],
    g: u32,
    k: u16,
) -> Result<u16, Error>
    ensures { result ≡ found (rows_of rows.now l op r) Ok (Err (cause.UnresolvedTwin l (code_of op) r (twins_from (kinds_of t.now) (at (dims_from w.now 0) g) k))) }
{
    match row_of(rows, l, op, r) {
        Some(m) => Ok(m),
        None => Err(Error::UnresolvedTwin(l, op_code(op), r, twins_from(t, w, g, k))),
    }
}

// Of the kinds that fit a product of this grade the only one, the row's, or why there is none. `powers` has a match of its own over the same three cases,
// without rows and with other refusals: a function of two closures would be as long as both.
#[tactic(auto, using(crate::proofs::Settled::settlements))]
fn fitted(t: &[u32], rows: &[u32], l: u16, op: ProductOp, r: u16, g: u32) -> Result<u16, Error>
    ensures { result ≡ looked (fitted_as (kinds_of t.now) (rows_of rows.now) l op r (joined_as (kinds_of t.now) l op r g)) }
{
    let w = joined_words(t, l, op, r);
    match only_fit(t, &w, g) {
        Fit::Only(k) => Ok(k),
        Fit::Second(k) => several(t, rows, l, op, r, &w, g, k),
        Fit::Nothing => Err(Error::NoProductKind(dims_in(&w), g)),
    }
}

// The kind that is known already, or else one that fits.
#[tactic(auto, using(crate::proofs::Settled::settlements))]
fn settled(t: &[u32], rows: &[u32], l: u16, op: ProductOp, r: u16, g: u32) -> Result<u16, Error>
    ensures { result ≡ looked (settled_as (kinds_of t.now) (rows_of rows.now) l op r (joined_as (kinds_of t.now) l op r g)) }
{
    match known_kind(t, l, op, r) {
        Some(k) => Ok(k),
        None => fitted(t, rows, l, op, r, g),
    }
}

#[tactic(auto, using(crate::proofs::Settled::settlements))]
pub fn product(t: &[u32], rows: &[u32], l: u16, op: ProductOp, r: u16) -> Result<u16, Error>
    ensures { result ≡ looked (rule.product (kinds_of t.now) (rows_of rows.now) l op r) }
{
    settled(t, rows, l, op, r, ruled(t, l, op, r)?)
}
