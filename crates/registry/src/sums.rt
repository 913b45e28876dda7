// Sums and differences, by the differences of the two kinds, which points alone have; and scaling.
ghost use Rattle.std.specs.Prelude.{◌≡◌};
ghost use Rattle.rules.specs.Arithmetic as rule;
ghost use Rattle.rules.specs.Table.{kinds_of};
ghost use Rattle.registry.specs.Shown.{looked};

use error::{Error, Op};
use table::{difference_of, is_point};

// k where the kinds agree.
#[tactic(auto, using(crate::proofs::Answered::answered))]
pub fn agree(expected: u16, actual: u16, k: u16) -> Result<u16, Error>
    ensures { result ≡ looked (rule.agree expected actual k) }
{
    if expected == actual {
        return Ok(k);
    }
    Err(Error::KindMismatch(expected, actual))
}

// What is added to a point is a difference of it, on either side; 43 for two points. `minus` is another rule over the same four cases: a function for
// both would have the two that differ as parameters, which is no plainer.
#[tactic(auto, unfolding(rules::specs::Arithmetic::sum_by, crate::specs::Shown::looked))]
fn plus(l: u16, r: u16, dl: Option<u16>, dr: Option<u16>) -> Result<u16, Error>
    ensures { result ≡ looked (rule.sum_by rule.Add dl dr l r) }
{
    match (dl, dr) {
        (Some(d), Some(e)) => Err(Error::UnsupportedOperation(Op::Add.code(), l, r)),
        (Some(d), None) => agree(d, r, l),
        (None, Some(e)) => agree(e, l, r),
        (None, None) => agree(l, r, l),
    }
}

// Two points are a difference apart, and a difference taken from a point gives the point; 43 for a point that is taken from what is none.
#[tactic(auto, unfolding(rules::specs::Arithmetic::sum_by, crate::specs::Shown::looked))]
fn minus(l: u16, r: u16, dl: Option<u16>, dr: Option<u16>) -> Result<u16, Error>
    ensures { result ≡ looked (rule.sum_by rule.Sub dl dr l r) }
{
    match (dl, dr) {
        (Some(d), Some(e)) => agree(l, r, d),
        (Some(d), None) => agree(d, r, l),
        (None, Some(e)) => Err(Error::UnsupportedOperation(Op::Sub.code(), l, r)),
        (None, None) => agree(l, r, l),
    }
}

// Not one function with `subtracted`: it would be handed `plus` or `minus`, and each call would name it.
#[tactic(auto, unfolding(rules::specs::Arithmetic::sum))]
pub fn added(t: &[u32], l: u16, r: u16) -> Result<u16, Error>
    ensures { result ≡ looked (rule.sum (kinds_of t.now) rule.Add l r) }
{
    plus(l, r, difference_of(t, l), difference_of(t, r))
}

#[tactic(auto, unfolding(rules::specs::Arithmetic::sum))]
pub fn subtracted(t: &[u32], l: u16, r: u16) -> Result<u16, Error>
    ensures { result ≡ looked (rule.sum (kinds_of t.now) rule.Sub l r) }
{
    minus(l, r, difference_of(t, l), difference_of(t, r))
}

// Times or over a number, or without its sign: what no point can be. The code is the token's, lent as a number: an enum would ask more of a caller.
// 43 returns 65,535 for the kind that isn't there: the refusal holds what 01 returns, as the rules' has it, and `say` alone reads it.
#[tactic(auto, using(crate::proofs::Answered::answered))]
pub fn scaled(t: &[u32], code: u8, k: u16) -> Result<u16, Error>
    ensures { result ≡ looked (rule.scaled (kinds_of t.now) code k) }
{
    if is_point(t, k) {
        return Err(Error::UnsupportedOperation(code, k, 65535));
    }
    Ok(k)
}
