// A lookup by itself: 5, 40, 50, 41 left, 41 right, and then the lookup; 44 and 48 list their twins.
ghost use Rattle.std.specs.Prelude.{◌≡◌};
ghost use Rattle.rules.specs.Refusal.{twins_after};
ghost use Rattle.rules.specs.Arithmetic as rule;
ghost use Rattle.rules.specs.Lookup as lone;
ghost use Rattle.rules.specs.Table.{kinds_of};
ghost use Rattle.fitting.specs.Shown.{room_listed};
ghost use Rattle.registry.specs.Shown.{looked};
ghost use Rattle.lookup.specs.Shown.{exponent_of, placed, tested, at_start, twins_of, name_of, lent_combine, lent_power, power_by};

use crate::lent::check_lent;
use crate::twins::list_twins;
use dimension::Rational;
use error::{EXACT, Error, Fault, INEXACT, Op};
use table::kind_count;

// An exponent as it is handed over: a numerator and a denominator, not yet reduced, or inexact, which is an exponent too and no missing one.
#[derive(Clone, Copy)]
pub enum Exponent {
    Exact(i32, u32),
    Inexact,
}

// 41, which `formula` tests at its tokens, where the answer is a term.
#[tactic(auto, using(crate::proofs::Ordered::indexing))]
fn indexed(t: &[u32], k: u16) -> Result<(), Error>
    ensures { result ≡ tested (rule.indexed (kinds_of t.now) k) }
{
    if kind_count(t) <= k {
        return Err(Error::NoKind(k));
    }
    Ok(())
}

// 5, 40, 50, 41 left, 41 right, then the sum or product.
#[tactic(auto, using(crate::proofs::Ordered::combining))]
fn combined(t: &[u32], rows: &[u32], twins: &[u16], code: u8, l: u16, r: u16) -> Result<u16, Error>
    ensures { result ≡ looked (lent_combine t.now rows.now twins.now code l r) }
{
    check_lent(t, rows, twins)?;
    let op = Op::from_code(code).ok_or(Error::Malformed(0))?;
    indexed(t, l)?;
    indexed(t, r)?;
    registry::combined(t, rows, op, l, r)
}

// A lookup's refusal is at 0.
#[tactic(auto, unfolding(crate::specs::Shown::at_start))]
fn at_start(looked: Result<u16, Error>) -> Result<u16, Fault>
    ensures { result ≡ at_start looked }
{
    looked.map_err(|e| e.at(0))
}

// The answer of a lookup, placed; its twins are listed.
fn answered(t: &[u32], looked: Result<u16, Error>, twins: &mut [u16]) -> Result<u16, Fault>
    ensures value { result ≡ at_start looked }
    ensures twins_after { twins.new ≡ room_listed (twins_of (kinds_of t.now) (name_of (at_start looked))) twins.old }
{
    let answer = at_start(looked);
    list_twins(t, answer, twins);
    answer
}

// Two kinds combined by the code of a token, 2 to 7. The code is lent as a number: an enum would ask more of a caller.
#[tactic(auto, using(crate::proofs::Whole::wholes))]
pub fn combine(
    table: &[u32],
    rows: &[u32],
    twins: &mut [u16],
    code: u8,
    l: u16,
    r: u16,
) -> Result<u16, Fault>
    ensures value { result ≡ placed (lone.combine table.now rows.now twins.old code l r) }
    ensures twins_after { twins.new ≡ twins_after (lone.combine table.now rows.now twins.old code l r) twins.old }
{
    answered(table, combined(table, rows, twins, code, l, r), twins)
}

// The numerator and denominator are no `Rational` before they are reduced, which may be refused. The code is what 43 hands out.
#[tactic(auto, using(crate::proofs::Ordered::raising))]
fn raised_exactly(t: &[u32], k: u16, num: i32, den: u32) -> Result<u16, Error>
    ensures { result ≡ looked (power_by (kinds_of t.now) k (lone.exact num den)) }
{
    let e = Rational::new(num, den).ok_or(Error::Malformed(0))?;
    indexed(t, k)?;
    registry::power(t, EXACT, k, e)
}

#[tactic(auto, using(crate::proofs::Ordered::raising))]
fn raised_inexactly(t: &[u32], k: u16) -> Result<u16, Error>
    ensures { result ≡ looked (power_by (kinds_of t.now) k lone.inexact) }
{
    indexed(t, k)?;
    registry::inexact_power(t, INEXACT, k)
}

// 5, 40, 50, 41, then the power.
#[tactic(auto, using(crate::proofs::Ordered::raising))]
fn raised(t: &[u32], twins: &[u16], k: u16, exponent: Exponent) -> Result<u16, Error>
    ensures { result ≡ looked (lent_power t.now twins.now k (exponent_of exponent)) }
{
    check_lent(t, &[], twins)?;
    match exponent {
        Exponent::Exact(num, den) => raised_exactly(t, k, num, den),
        Exponent::Inexact => raised_inexactly(t, k),
    }
}

// A base to an exponent. A power reads no row.
#[tactic(auto, using(crate::proofs::Whole::wholes))]
pub fn power(table: &[u32], twins: &mut [u16], k: u16, exponent: Exponent) -> Result<u16, Fault>
    ensures value { result ≡ placed (lone.power table.now twins.old k (exponent_of exponent)) }
    ensures twins_after { twins.new ≡ twins_after (lone.power table.now twins.old k (exponent_of exponent)) twins.old }
{
    answered(table, raised(table, twins, k, exponent), twins)
}
