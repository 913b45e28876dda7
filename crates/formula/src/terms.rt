// What a token makes of the terms it takes: a number, a kind or a refusal; who knows the token puts its place in.
ghost use Rattle.std.specs.Prelude.{◌≡◌, ℕ};
ghost use Rattle.std.specs.declared.option.Option.TheVariants.{Some};
ghost use Rattle.rules.specs.Arithmetic as arithmetic;
ghost use Rattle.rules.specs.Formula as rule;
ghost use Rattle.rules.specs.Refusal.{Answer};
ghost use Rattle.rules.specs.Table.{kinds_of, rows_of};
ghost use Rattle.registry.specs.Shown.{looked};
ghost use Rattle.formula.specs.Shown.{made, term_of, unary_of, binary_of};

use dimension::{ProductOp, Rational};
use error::{ABSOLUTE, COMPARE, EXACT, Error, INEXACT, Op, op_code};
use registry::{agree, combined, inexact_power, power, scaled};
use table::kind_count;
use tokens::{Binary, Unary};

// A plain number, or a quantity of a kind. No Option: a number is a term too and no missing kind, and the two names say what a term is.
#[derive(Clone, Copy)]
pub enum Term {
    Number,
    Kind(u16),
}

// 41 for a kind past the count. The `indexed` of `lookup` tests the same: one function for both would be public, with a contract and an edit that must be
// refused of its own, for one test.
#[tactic(auto, unfolding(rules::specs::Formula::kind_term, rules::specs::Arithmetic::indexed, crate::specs::Shown::made))]
pub(crate) fn kind_term(t: &[u32], k: u16) -> Result<Term, Error>
    ensures { result ≡ made (rule.kind_term (kinds_of t.now) k) }
{
    if k < kind_count(t) {
        return Ok(Term::Kind(k));
    }
    Err(Error::NoKind(k))
}

#[tactic(auto, unfolding(rules::specs::Formula::one_kind))]
fn one_kind(t: &[u32], u: Unary, k: u16) -> Result<u16, Error>
    ensures { result ≡ looked (rule.one_kind (kinds_of t.now) (unary_of u) k) }
{
    match u {
        Unary::Exact(e) => power(t, EXACT, k, e),
        Unary::Inexact => inexact_power(t, INEXACT, k),
        Unary::Absolute => scaled(t, ABSOLUTE, k),
    }
}

// A number stays a number.
#[tactic(auto, unfolding(rules::specs::Formula::unary_term, registry::specs::Shown::looked, crate::specs::Shown::made))]
pub(crate) fn unary_term(t: &[u32], u: Unary, x: Term) -> Result<Term, Error>
    ensures { result ≡ made (rule.unary_term (kinds_of t.now) (unary_of u) (term_of x)) }
{
    match x {
        Term::Number => Ok(Term::Number),
        Term::Kind(k) => one_kind(t, u, k).map(Term::Kind),
    }
}

// A kind over a number: the kind, refused with the code of Div.
fn over_number(t: &[u32], k: u16) -> Result<u16, Error>
    ensures { result ≡ looked (arithmetic.scaled (kinds_of t.now) 5 k) }
{
    scaled(t, op_code(ProductOp::Div), k)
}

// A number over a kind: the kind's power -1, refused with the code of Div.
fn inverse(t: &[u32], k: u16) -> Result<u16, Error>
    ensures { result ≡ looked (arithmetic.power (kinds_of t.now) 5 k (Some rule.minus_one)) }
{
    power(t, op_code(ProductOp::Div), k, Rational { num: -1, den: 1 })
}

// A kind and a number: times scales, over is the quotient, a closure since it isn't looked up for any other; 49 for all else.
#[tactic(auto, unfolding(rules::specs::Formula::with_number, registry::specs::Shown::looked))]
fn with_number<F: FnOnce() -> Result<u16, Error>>(
    t: &[u32],
    b: Binary,
    k: u16,
    quotient: F,
) -> Result<u16, Error>
    requires { F.IsAlwaysCallable quotient }
    ensures { (q : Answer ℕ) → ((r : _) → F.post quotient r → r ≡ looked q) → result ≡ looked (rule.with_number (kinds_of t.now) (binary_of b) k q) }
{
    match b {
        Binary::Combine(Op::Product(ProductOp::Mul)) => scaled(t, op_code(ProductOp::Mul), k),
        Binary::Combine(Op::Product(ProductOp::Div)) => quotient(),
        Binary::Combine(op) => Err(Error::NumberTerm(op.code(), k)),
        Binary::Compare => Err(Error::NumberTerm(COMPARE, k)),
    }
}

// A comparison wants two equal kinds and leaves the left.
#[tactic(auto, unfolding(rules::specs::Formula::two_kinds))]
fn two_kinds(t: &[u32], rows: &[u32], b: Binary, l: u16, r: u16) -> Result<u16, Error>
    ensures { result ≡ looked (rule.two_kinds (kinds_of t.now) (rows_of rows.now) (binary_of b) l r) }
{
    match b {
        Binary::Combine(op) => combined(t, rows, op, l, r),
        Binary::Compare => agree(l, r, l),
    }
}

// Numbers alone give a number.
#[tactic(auto, unfolding(rules::specs::Formula::binary_term, registry::specs::Shown::looked, crate::specs::Shown::made))]
pub(crate) fn binary_term(
    t: &[u32],
    rows: &[u32],
    b: Binary,
    x: Term,
    y: Term,
) -> Result<Term, Error>
    ensures { result ≡ made (rule.binary_term (kinds_of t.now) (rows_of rows.now) (binary_of b) (term_of x) (term_of y)) }
{
    match (x, y) {
        (Term::Number, Term::Number) => Ok(Term::Number),
        (Term::Kind(l), Term::Kind(r)) => two_kinds(t, rows, b, l, r).map(Term::Kind),
        (Term::Kind(k), Term::Number) => with_number(t, b, k, || over_number(t, k)).map(Term::Kind),
        (Term::Number, Term::Kind(k)) => with_number(t, b, k, || inverse(t, k)).map(Term::Kind),
    }
}
