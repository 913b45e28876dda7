// The kinds that are known before any is looked for: the dimensionless kind is neutral, and a rate goes with its target. Table, operands and operation go
// one by one, as the rules that the contracts cite take them: a struct of the four would be opened at every use.
ghost use Rattle.std.specs.Prelude.{◌≡◌, cond, ◌||◌, eqb};
ghost use Rattle.std.specs.declared.option.Option.TheVariants.{None, Some};
ghost use Rattle.laws.specs.Options.{or_else};
ghost use Rattle.dimension.specs.Fraction as F;
ghost use Rattle.rules.specs.Table.{kinds_of};
ghost use Rattle.rules.specs.Arithmetic as rule;

use dimension::{ProductOp, Rational};
use table::{dimensionless, duration, rate_of, target_of};

// Of two operands of a product, the one beside kind o.
fn beside(o: u16, l: u16, r: u16) -> Option<u16>
    ensures { result ≡ cond (eqb r o) (Some l) (cond (eqb l o) (Some r) None) }
{
    if r == o {
        return Some(l);
    }
    if l == o {
        return Some(r);
    }
    None
}

fn neutral_div(o: u16, l: u16, r: u16) -> Option<u16>
    ensures { result ≡ cond (eqb r o) (Some l) (cond (eqb l r) (Some o) None) }
{
    if r == o {
        return Some(l);
    }
    if l == r {
        return Some(o);
    }
    None
}

#[tactic(auto, unfolding(rules::specs::Arithmetic::neutral_by))]
fn neutral_by(op: ProductOp, o: u16, l: u16, r: u16) -> Option<u16>
    ensures { result ≡ rule.neutral_by op o l r }
{
    match op {
        ProductOp::Mul => beside(o, l, r),
        ProductOp::Div => neutral_div(o, l, r),
        ProductOp::Dot => None,
        ProductOp::Wedge => None,
    }
}

// The dimensionless kind is neutral in Mul and as divisor, and a kind over itself gives it.
#[tactic(auto, unfolding(rules::specs::Arithmetic::neutral))]
fn neutral(t: &[u32], l: u16, op: ProductOp, r: u16) -> Option<u16>
    ensures { result ≡ rule.neutral (kinds_of t.now) l op r }
{
    neutral_by(op, dimensionless(t)?, l, r)
}

fn rated_mul(t: &[u32], d: u16, l: u16, r: u16) -> Option<u16>
    ensures { result ≡ cond (eqb r d) ((kinds_of t.now).rate_of l) (cond (eqb l d) ((kinds_of t.now).rate_of r) None) }
{
    target_of(t, beside(d, l, r)?)
}

fn rated_div(t: &[u32], d: u16, l: u16, r: u16) -> Option<u16>
    ensures { result ≡ cond (eqb r d) ((kinds_of t.now).rate l) None }
{
    if r == d {
        return rate_of(t, l);
    }
    None
}

// Not one function with `neutral_by` over two closures: the four cases stand in a match as the rule has them, and a call would have to name its closures.
#[tactic(auto, unfolding(rules::specs::Arithmetic::rated_by))]
fn rated_by(t: &[u32], op: ProductOp, d: u16, l: u16, r: u16) -> Option<u16>
    ensures { result ≡ rule.rated_by (kinds_of t.now) op d l r }
{
    match op {
        ProductOp::Mul => rated_mul(t, d, l, r),
        ProductOp::Div => rated_div(t, d, l, r),
        ProductOp::Dot => None,
        ProductOp::Wedge => None,
    }
}

// A rate times duration is its target, the target over duration its rate.
#[tactic(auto, unfolding(rules::specs::Arithmetic::rated))]
fn rated(t: &[u32], l: u16, op: ProductOp, r: u16) -> Option<u16>
    ensures { result ≡ rule.rated (kinds_of t.now) l op r }
{
    rated_by(t, op, duration(t)?, l, r)
}

// What a product is known as: neutral first, then by a rate.
pub fn known_kind(t: &[u32], l: u16, op: ProductOp, r: u16) -> Option<u16>
    ensures { result ≡ or_else (rule.neutral (kinds_of t.now) l op r) (rule.rated (kinds_of t.now) l op r) }
{
    neutral(t, l, op, r).or_else(|| rated(t, l, op, r))
}

// Exponent zero, or the dimensionless kind, gives that kind where it is declared.
#[tactic(auto, unfolding(rules::specs::Arithmetic::neutral_power))]
pub fn neutral_power(t: &[u32], k: u16, e: Rational) -> Option<u16>
    ensures { result ≡ rule.neutral_power (kinds_of t.now) k e }
{
    neutral_raised(dimensionless(t)?, k, e)
}

fn neutral_raised(o: u16, k: u16, e: Rational) -> Option<u16>
    ensures { result ≡ cond (F.is_zero e || eqb k o) (Some o) None }
{
    if e.is_zero() | (k == o) {
        return Some(o);
    }
    None
}
