// The twins of a refusal. A lookup writes nothing: its refusal names the product or power, and here the kinds that fit it are listed.
ghost use Rattle.std.specs.Prelude.{◌≡◌};
ghost use Rattle.rules.specs.Kinds as K;
ghost use Rattle.rules.specs.Table.{kinds_of};
ghost use Rattle.dimension.specs.Dimension as D;
ghost use Rattle.fitting.specs.Shown.{at, room_listed};
ghost use Rattle.joined.specs.Shown.{dims_at};
ghost use Rattle.lookup.specs.Shown.{op_by, named, name_of, fits_derived, twins_from, twins_of};

use derive::derive;
use dimension::{Dimensions, ProductOp, Rational};
use error::{Error, Fault, Op};
use fitting::list_candidates;
use table::dims_of;

// What several kinds fit: the left, operation and right of a product, or the base and exponent of a power.
#[derive(Clone, Copy)]
pub(crate) enum Origin {
    Product(u16, ProductOp, u16),
    Power(u16, Rational),
}

// The product whose token has this code, 4 to 7, which the caller lends as a number. Any other counts as Wedge, with no Option: by it a row is looked
// for, sums read none, and the lookup refuses a code that is no operation's. The `op_of` of `catalog` is no twin: it reads a row's word, 0 to 3.
#[tactic(auto, using(crate::proofs::Named::products))]
pub fn op_of(code: u8) -> ProductOp
    ensures { result ≡ op_by code }
{
    match Op::from_code(code) {
        Some(Op::Product(op)) => op,
        _ => ProductOp::Wedge,
    }
}

// What a refusal names.
#[tactic(auto, using(crate::proofs::Named::named_else), unfolding(crate::specs::Shown::named))]
fn named(e: Error) -> Option<Origin>
    ensures { result ≡ named e }
{
    match e {
        Error::UnresolvedTwin(l, op, r, n) => Some(Origin::Product(l, op_of(op), r)),
        Error::UnresolvedPowerTwin(k, e, n) => Some(Origin::Power(k, e)),
        _ => None,
    }
}

#[tactic(auto, using(crate::proofs::Listing::listing), unfolding(crate::specs::Shown::fits_derived))]
fn list_product(t: &[u32], l: u16, op: ProductOp, r: u16, twins: &mut [u16])
    ensures { twins.new ≡ room_listed (fits_derived (kinds_of t.now) l op r) twins.old }
{
    if let Ok(x) = derive(t, l, op, r) {
        list_candidates(t, x.dims, x.grade, twins);
    }
}

#[tactic(auto, using(crate::proofs::Listing::listing))]
fn list_power(t: &[u32], k: u16, e: Rational, twins: &mut [u16])
    ensures { twins.new ≡ room_listed (K.candidates (kinds_of t.now) (at (D.or_one (D.power (dims_at (kinds_of t.now) k) e)) 0)) twins.old }
{
    let power = dims_of(t, k).pow(e).unwrap_or(Dimensions::one());
    list_candidates(t, power, 0, twins);
}

#[tactic(auto, unfolding(crate::specs::Shown::twins_from))]
fn list_origin(t: &[u32], origin: Origin, twins: &mut [u16])
    ensures { twins.new ≡ room_listed (twins_from (kinds_of t.now) origin) twins.old }
{
    match origin {
        Origin::Product(l, op, r) => list_product(t, l, op, r, twins),
        Origin::Power(k, e) => list_power(t, k, e, twins),
    }
}

#[tactic(auto, using(crate::proofs::Listing::list_none), unfolding(crate::specs::Shown::twins_of))]
fn list_named(t: &[u32], e: Error, twins: &mut [u16])
    ensures { twins.new ≡ room_listed (twins_of (kinds_of t.now) (named e)) twins.old }
{
    if let Some(origin) = named(e) {
        list_origin(t, origin, twins);
    }
}

// The twins that an answer names, from the front of the lent list; a list under 240 entries stays as it was.
#[tactic(auto, using(crate::proofs::Listing::list_none), unfolding(crate::specs::Shown::name_of, crate::specs::Shown::twins_of))]
pub fn list_twins<T: Copy>(t: &[u32], answer: Result<T, Fault>, twins: &mut [u16])
    ensures { twins.new ≡ room_listed (twins_of (kinds_of t.now) (name_of answer)) twins.old }
{
    if let Err(fault) = answer {
        list_named(t, fault.error, twins);
    }
}
