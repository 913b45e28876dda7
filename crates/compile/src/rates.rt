// 12 and 17 to 21: rates.
ghost use Rattle.std.specs.Prelude.{◌≡◌, ◌<◌};
ghost use Rattle.rules.specs.Layout as layout;
ghost use Rattle.rules.specs.Catalog.{catalog_in};
ghost use Rattle.rules.specs.Compile as rule;
ghost use Rattle.rules.specs.Table as T;
ghost use Rattle.joined.specs.Shown.{dims_at};
ghost use Rattle.compile.specs.Shown.{ruled, rate_once, rate_fits, rate_over, rate_for};

use crate::answers::refused_at;
use crate::declared::Declared;
use catalog::{blank_at, kind_place};
use dimension::Dimensions;
use error::{Error, Fault};
use fitting::carries;
use table::{dims_of, duration, grade_of, is_point, is_resolved, rate_of, target_of};

// 21: no earlier kind is a rate of g. That k and g are kinds of the image is said here and not by a type: two of them would be needed, and each rule's
// name would be that of a field.
#[tactic(auto, using(crate::proofs::Rated::onces))]
fn check_once(c: Declared, k: u16, g: u16) -> Result<(), Fault>
    requires k_bound { k < layout.kind_count c.image.now }
    requires g_bound { g < layout.kind_count c.image.now }
    ensures { result ≡ ruled k (rate_once (catalog_in c.entry.image.now) k g) }
{
    if let Some(j) = rate_of(c.t, g) {
        if j < k {
            return refused_at(Error::AlsoRateOf(j), k);
        }
    }
    Ok(())
}

// 20, 21: rate times duration has the dimensions of the target g, at the rate's grade.
#[tactic(auto, using(crate::proofs::Rated::rates))]
fn check_fit(c: Declared, k: u16, g: u16, d: u16) -> Result<(), Fault>
    requires k_bound { k < layout.kind_count c.image.now }
    requires g_bound { g < layout.kind_count c.image.now }
    ensures { result ≡ ruled k (rate_fits (catalog_in c.entry.image.now) k g (dims_at (T.kinds_of c.entry.t.now) k) (dims_at (T.kinds_of c.entry.t.now) d)) }
{
    let product = dims_of(c.t, k).product(dims_of(c.t, d));
    let dims = product.unwrap_or(Dimensions::one());
    let grade = grade_of(c.t, k);
    if !carries(c.t, dims, grade, g) {
        return refused_at(Error::RateMismatch(dims, grade), k);
    }
    check_once(c, k, g)
}

// 18 to 21: kind k as the rate of g over the duration d. Each test with what it names, in the order of this rule: a function of 19 would take as many
// lines as the three tests would lose.
#[tactic(auto, using(crate::proofs::Rated::rates))]
fn check_over(c: Declared, k: u16, g: u16, d: u16) -> Result<(), Fault>
    requires k_bound { k < layout.kind_count c.image.now }
    requires g_bound { g < layout.kind_count c.image.now }
    ensures { result ≡ ruled k (rate_over (catalog_in c.entry.image.now) k g d) }
{
    if is_point(c.t, k) {
        return refused_at(Error::PointRate(k, g, k), k);
    }
    if is_point(c.t, g) {
        return refused_at(Error::PointRate(k, g, g), k);
    }
    if !is_resolved(c.t, k) {
        return refused_at(Error::UnresolvedDimensions(k), k);
    }
    if !is_resolved(c.t, g) {
        return refused_at(Error::UnresolvedDimensions(g), k);
    }
    if !is_resolved(c.t, d) {
        return refused_at(Error::UnresolvedDimensions(d), k);
    }
    check_fit(c, k, g, d)
}

// 17 to 21: kind k as the rate of g.
#[tactic(auto, using(crate::proofs::Rated::rates))]
fn check_for(c: Declared, k: u16, g: u16) -> Result<(), Fault>
    requires k_bound { k < layout.kind_count c.image.now }
    requires g_bound { g < layout.kind_count c.image.now }
    ensures { result ≡ ruled k (rate_for (catalog_in c.entry.image.now) k g) }
{
    match duration(c.t) {
        Some(d) => check_over(c, k, g, d),
        None => refused_at(Error::NoTimeKind(k, g), k),
    }
}

// The rate that kind k is declared as.
#[tactic(auto, using(crate::proofs::Rated::rates))]
pub(crate) fn check_rate(c: Declared, k: u16) -> Result<(), Fault>
    requires k_bound { k < layout.kind_count c.image.now }
    ensures { result ≡ ruled k (rule.rate_rule (catalog_in c.entry.image.now) k) }
{
    if blank_at(c.image, kind_place(k) + 64) {
        return Ok(());
    }
    match target_of(c.t, k) {
        Some(g) => check_for(c, k, g),
        None => refused_at(Error::Unknown(k), k),
    }
}
