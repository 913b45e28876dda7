// The dimensions of quantities: an exponent for each of twelve base quantities.
ghost use Rattle.std.specs.Prelude.{◌≡◌, Option};
ghost use mathlib.Core.List.{zip_with};
ghost use Rattle.dimension.specs.Dimension as D;
ghost use Rattle.dimension.specs.Applied.{Computes};

use crate::rational::{Rational, ZERO};

#[derive(Clone, Copy, PartialEq, Eq)]
pub struct Dimensions {
    pub powers: [Rational; 12],
}

// The rule, exponent by exponent; none where one of them is over the limits. By places: the invariant says which of them are done, and over
// `iter_mut().zip(b)`, in as many lines, it would have to speak of what is left.
fn each<F: Fn(Rational, Rational) -> Option<Rational>>(
    a: [Rational; 12],
    b: [Rational; 12],
    rule: F,
) -> Option<Dimensions>
    requires { F.IsAlwaysCallable rule }
    ensures { (f : Rational → Rational → Option Rational) → Computes (λ x y r. F.post rule x y r) f a b → result ≡ D.outcome (zip_with f a b) }
{
    let mut out = a;
    for i in 0..12 {
        out[i] = rule(a[i], b[i])?;
    }
    Some(Dimensions { powers: out })
}

impl Dimensions {
    // A pure number's.
    pub fn one() -> Dimensions
        ensures { result ≡ D.one }
    {
        Dimensions { powers: [ZERO; 12] }
    }

    #[tactic(auto, unfolding(crate::specs::Dimension::product))]
    pub fn product(self, other: Dimensions) -> Option<Dimensions>
        ensures { result ≡ D.product self other }
    {
        each(self.powers, other.powers, Rational::add)
    }

    #[tactic(auto, unfolding(crate::specs::Dimension::quotient))]
    pub fn quotient(self, other: Dimensions) -> Option<Dimensions>
        ensures { result ≡ D.quotient self other }
    {
        each(self.powers, other.powers, Rational::minus)
    }

    pub fn pow(self, exponent: Rational) -> Option<Dimensions>
        ensures { result ≡ D.power self exponent }
    {
        each(self.powers, [exponent; 12], Rational::times)
    }

    // As of a fraction, by the name that the rules' `equal` has: a public promise, and callers that cite it need no law of the derived `==`.
    #[tactic(auto, using(crate::proofs::Places::pointwise_alike, crate::proofs::Signs::same_fraction), unfolding(crate::specs::Dimension::equal))]
    pub fn equals(self, other: Dimensions) -> bool
        ensures { result ≡ D.equal self other }
    {
        self == other
    }
}
