// Powers of a kind.
ghost use Rattle.std.specs.Prelude.{◌≡◌};
ghost use Rattle.std.specs.declared.option.Option.TheVariants.{None, Some};
ghost use Rattle.rules.specs.Arithmetic as rule;
ghost use Rattle.rules.specs.Table.{kinds_of};
ghost use Rattle.registry.specs.Shown.{looked, raised_as, fitted_power, over_as};

use derive::neutral_power;
use dimension::{Dimensions, Rational};
use error::Error;
use fitting::{Fit, only_fit, twins_from};
use table::{dims_in, dims_of, grade_of, is_point, is_resolved, words_of};

// The only kind that fits the power k to e, which has these dimensions, or why there is none.
#[tactic(auto, using(crate::proofs::Raised::powers))]
fn fitted(t: &[u32], k: u16, e: Rational, d: Dimensions) -> Result<u16, Error>
    ensures { result ≡ looked (fitted_power (kinds_of t.now) k e d) }
{
    let w = words_of(d);
    match only_fit(t, &w, 0) {
        Fit::Only(m) => Ok(m),
        Fit::Second(m) => Err(Error::UnresolvedPowerTwin(k, e, twins_from(t, &w, 0, m))),
        Fit::Nothing => Err(Error::NoPowerKind(dims_in(&w))),
    }
}

// The kind that is known already, or else one that fits.
#[tactic(auto, using(crate::proofs::Raised::powers))]
fn raised_to(t: &[u32], k: u16, e: Rational, d: Dimensions) -> Result<u16, Error>
    ensures { result ≡ looked (raised_as (kinds_of t.now) k e d) }
{
    match neutral_power(t, k, e) {
        Some(m) => Ok(m),
        None => fitted(t, k, e, d),
    }
}

// 28, or the kind: k has the dimensions d. A `match`: `ok_or` under `?` is no plainer, and copies the dimensions once more. It was tried, and a formula of
// 128 tokens with powers took 154,247 instructions in place of 150,437.
#[tactic(auto, using(crate::proofs::Raised::powers))]
fn raised_from(t: &[u32], k: u16, e: Rational, d: Dimensions) -> Result<u16, Error>
    ensures { result ≡ looked (over_as (kinds_of t.now) k e d) }
{
    match d.pow(e) {
        Some(power) => raised_to(t, k, e, power),
        None => Err(Error::PowerOverLimits(k)),
    }
}

// 46, 19, 28, then the kind, 47 or 48. The words of a table hold the flag for 19 apart from the dimensions, and `table` reads them by two calls.
#[tactic(auto, using(crate::proofs::Raised::powers))]
fn raised(t: &[u32], k: u16, e: Rational) -> Result<u16, Error>
    ensures { result ≡ looked (rule.raised (kinds_of t.now) k e) }
{
    let g = grade_of(t, k);
    if g != 0 {
        return Err(Error::UngradedPower(g));
    }
    if !is_resolved(t, k) {
        return Err(Error::UnresolvedDimensions(k));
    }
    raised_from(t, k, e, dims_of(t, k))
}

// 43 for a point; exponent one gives the kind. The code is the token's, lent as a number: an enum would ask more of a caller. 43 returns 65,535 for
// the kind that isn't there, and no Option: the refusal holds what 01 returns, as the rules' has it, and `say` alone reads it.
#[tactic(auto, using(crate::proofs::Raised::powers))]
pub fn power(t: &[u32], code: u8, k: u16, e: Rational) -> Result<u16, Error>
    ensures { result ≡ looked (rule.power (kinds_of t.now) code k (Some e)) }
{
    if is_point(t, k) {
        return Err(Error::UnsupportedOperation(code, k, 65535));
    }
    if e.is_one() {
        return Ok(k);
    }
    raised(t, k, e)
}

// 43: no kind has an inexact power. It returns 65,535 as `power` does.
#[tactic(auto, using(crate::proofs::Raised::powers))]
pub fn inexact_power(t: &[u32], code: u8, k: u16) -> Result<u16, Error>
    ensures { result ≡ looked (rule.power (kinds_of t.now) code k None) }
{
    Err(Error::UnsupportedOperation(code, k, 65535))
}
