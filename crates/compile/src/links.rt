// 12 to 16: differences, the dimensionless and the time kind. That d or k is a kind of the image is said by a `requires`: a type of such numbers would
// hold the image too, and both are plain numbers everywhere else. A place in the header is a `u32`, which is a `usize` by `as`: there is no `From`.
ghost use Rattle.std.specs.Prelude.{◌≡◌, ◌<◌};
ghost use Rattle.rules.specs.Layout as layout;
ghost use Rattle.rules.specs.Table as T;
ghost use Rattle.rules.specs.Catalog.{catalog_in, meant};
ghost use Rattle.rules.specs.Compile as rule;
ghost use Rattle.compile.specs.Shown.{ruled, differed, neutral_kind, time_kind, is_difference_in, linear_one};

use crate::answers::refused_at;
use crate::declared::Declared;
use catalog::{DIMENSIONLESS, TIME, blank_at, kind_place};
use dimension::Dimensions;
use error::{Error, Fault};
use table::{difference_of, dimensionless, dims_of, grade_of, is_point, is_resolved, time};

// Whether two kinds have the same dimensions, or both none. The words hold a flag and exponents apart, so there is no Option here to compare by `==`; to
// make two of them first would be no plainer. By `equals`, here and below: its contract is the `D.equal` that the rules cite.
fn same_dims(t: &[u32], a: u16, b: u16) -> bool
    ensures { result ≡ rule.same_dims ((T.kinds_of t.now).dims a) ((T.kinds_of t.now).dims b) }
{
    if !is_resolved(t, a) {
        return !is_resolved(t, b);
    }
    if !is_resolved(t, b) {
        return false;
    }
    dims_of(t, a).equals(dims_of(t, b))
}

// 13 and 14 of kind k with difference d.
#[tactic(auto, using(crate::proofs::Differences::differences))]
fn check_named(c: Declared, k: u16, d: u16) -> Result<(), Fault>
    requires d_bound { d < layout.kind_count c.image.now }
    ensures { result ≡ ruled k (differed (catalog_in c.entry.image.now) k d) }
{
    if !same_dims(c.t, k, d) {
        return refused_at(Error::AffineDimensionMismatch(k, d), k);
    }
    if !blank_at(c.image, kind_place(d) + 32) {
        return refused_at(Error::NestedAffineSpace(k, d), k);
    }
    Ok(())
}

// The difference of kind k. This rule, those of the dimensionless and the time kind, and that of rates ask alike: is the id blank, what does it name,
// 12 where it names nothing. One function for the four would take five arguments (whether the id is blank, what it names, whom 12 names, where it
// refuses, and a closure for the kind) in the place of these few lines. Of the nearest two,
// the dimensionless and the time kind, it would take four, for two functions of seven lines.
#[tactic(auto, using(crate::proofs::Differences::differences))]
pub(crate) fn check_difference(c: Declared, k: u16) -> Result<(), Fault>
    requires k_bound { k < layout.kind_count c.image.now }
    ensures { result ≡ ruled k (rule.difference_rule (catalog_in c.entry.image.now) k) }
{
    if blank_at(c.image, kind_place(k) + 32) {
        return Ok(());
    }
    match difference_of(c.t, k) {
        Some(d) => check_named(c, k, d),
        None => refused_at(Error::Unknown(k), k),
    }
}

// Whether k is the difference of kind j.
fn is_difference_of(t: &[u32], k: u16, j: u16) -> bool
    ensures { result ≡ meant k ((T.kinds_of t.now).difference j) }
{
    difference_of(t, j) == Some(k)
}

// Whether a kind has k as its difference.
#[tactic(auto, using(laws::proofs::First::first_none, laws::proofs::First::first_next))]
fn is_difference(t: &[u32], k: u16) -> bool
    ensures { result ≡ is_difference_in (T.kinds_of t.now) k }
{
    for j in 0..table::kind_count(t) {
        if is_difference_of(t, k, j) {
            return true;
        }
    }
    false
}

// Whether kind k is linear, neither point nor difference, and of dimension one.
#[tactic(auto, using(crate::proofs::Neutral::linears))]
fn is_linear_one(t: &[u32], k: u16) -> bool
    ensures { result ≡ linear_one (T.kinds_of t.now) k }
{
    if is_point(t, k) {
        return false;
    }
    if is_difference(t, k) {
        return false;
    }
    if !is_resolved(t, k) {
        return false;
    }
    dims_of(t, k).equals(Dimensions::one())
}

// 15 of the dimensionless kind o.
#[tactic(auto, using(crate::proofs::Neutral::headers))]
fn check_neutral(c: Declared, o: u16) -> Result<(), Fault>
    ensures { result ≡ ruled 12 (neutral_kind (catalog_in c.entry.image.now) o) }
{
    if !is_linear_one(c.t, o) {
        return Err(Error::InvalidDimensionlessKind(o).at(DIMENSIONLESS as usize));
    }
    Ok(())
}

#[tactic(auto, using(crate::proofs::Neutral::headers))]
pub(crate) fn check_dimensionless(c: Declared) -> Result<(), Fault>
    ensures { result ≡ ruled 12 (rule.dimensionless_rule (catalog_in c.entry.image.now)) }
{
    if blank_at(c.image, DIMENSIONLESS) {
        return Ok(());
    }
    match dimensionless(c.t) {
        Some(o) => check_neutral(c, o),
        None => Err(Error::Unknown(0).at(DIMENSIONLESS as usize)),
    }
}

// 16 of the time kind k.
#[tactic(auto, using(crate::proofs::Neutral::headers))]
fn check_instant(c: Declared, k: u16) -> Result<(), Fault>
    ensures { result ≡ ruled 44 (time_kind (catalog_in c.entry.image.now) k) }
{
    if is_point(c.t, k) & (grade_of(c.t, k) == 0) {
        return Ok(());
    }
    Err(Error::InvalidTimeKind(k).at(TIME as usize))
}

#[tactic(auto, using(crate::proofs::Neutral::headers))]
pub(crate) fn check_time(c: Declared) -> Result<(), Fault>
    ensures { result ≡ ruled 44 (rule.time_rule (catalog_in c.entry.image.now)) }
{
    if blank_at(c.image, TIME) {
        return Ok(());
    }
    match time(c.t) {
        Some(k) => check_instant(c, k),
        None => Err(Error::Unknown(0).at(TIME as usize)),
    }
}
