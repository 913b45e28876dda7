// An exponent is 8 bytes, a signed numerator and a denominator; dimensions are twelve of them.
ghost use Rattle.std.specs.Prelude.{◌≡◌, drop};
ghost use Rattle.stored.specs.Exponents as E;

use dimension::{Dimensions, Rational, signed32};
use numbers::u32_at;
use slices::after;

// The exponent at `at`.
#[tactic(auto, unfolding(crate::specs::Exponents::exponent))]
pub fn exponent(s: &[u8], at: usize) -> Rational
    ensures { result ≡ E.exponent (drop at s.now) }
{
    let e = after(s, at);
    Rational {
        num: signed32(u32_at(e, 0)),
        den: u32_at(e, 4),
    }
}

// The dimensions at `at`.
#[tactic(auto, using(laws::proofs::Tab::fills), unfolding(crate::specs::Exponents::dimensions))]
pub fn dimensions(s: &[u8], at: usize) -> Dimensions
    ensures { result ≡ E.dimensions (drop at s.now) }
{
    let e = after(s, at);
    let mut d = Dimensions::one();
    for i in 0..12 {
        d.powers[i] = exponent(e, 8 * i);
    }
    d
}
