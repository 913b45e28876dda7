// Exact exponents: fractions in lowest terms within 32-bit limits. Whatever is handed in, unreduced or over zero, the answer is the textbook's,
// in lowest terms, or that this is over the limits. A 32-bit numerator over a 32-bit denominator keeps every sum and product exact in 64 bits.
ghost use Rattle.std.specs.Prelude.{◌≡◌, ◌≤◌, ◌+◌, ◌*◌};
ghost use Rattle.std.proofs.Math.IntN.{sub_ℕ};
ghost use Rattle.dimension.specs.Fraction as F;
ghost use Rattle.dimension.specs.Integer as I;

use crate::integer::{by, cross, down, gcd, signed, size, up};

// num / den. An operation answers with a fraction in lowest terms within the limits, or with none.
#[derive(Clone, Copy, PartialEq, Eq)]
pub struct Rational {
    pub num: i32,
    pub den: u32,
}

pub const ZERO: Rational = Rational { num: 0, den: 1 };

pub const ONE: Rational = Rational { num: 1, den: 1 };

const LIMIT: u64 = 2147483647;

// The least whole number within the limits.
const LOWEST: i64 = -2147483647;

// num / den with its sign, if it is within the limits. The sign stands beside: with it a numerator of 64 bits would need 65, and `signed` joins them once
// they fit. Both numbers are held to one limit before they are cast: a `try_from` would let more denominators through.
#[tactic(auto, using(crate::proofs::Signs::signed_size), unfolding(crate::specs::Fraction::limited, crate::specs::Fraction::within))]
fn limited(negative: bool, num: u64, den: u64) -> Option<Rational>
    ensures { result ≡ F.limited (F.ratio (I.signed negative num) den) }
{
    if num <= LIMIT && 0 < den && den <= LIMIT {
        return Some(Rational {
            num: signed(negative, num),
            den: den as u32,
        });
    }
    None
}

// num / den with its sign, in lowest terms. Zero needs no divisor.
#[tactic(auto, using(crate::proofs::Whole::reductions), unfolding(crate::specs::Fraction::answer))]
fn reduced(negative: bool, num: u64, den: u64) -> Option<Rational>
    ensures { result ≡ F.answer (I.signed negative num) den }
{
    if den == 0 {
        return None;
    }
    if num == 0 {
        return Some(ZERO);
    }
    let g = gcd(num, den);
    limited(negative, num / g, den / g)
}

// (up - down) / den in lowest terms.
fn parted(up: u64, down: u64, den: u64) -> Option<Rational>
    ensures { result ≡ F.answer (sub_ℕ up down) den }
{
    if down <= up {
        reduced(false, up - down, den)
    } else {
        reduced(true, down - up, den)
    }
}

// A whole number needs no divisor either. The limits are not those of 32 bits, so a `try_from` alone would let one number more through.
#[tactic(auto, using(crate::proofs::Whole::wholes))]
fn whole(n: i64) -> Option<Rational>
    ensures { result ≡ F.answer n 1 }
{
    if n < LOWEST {
        return None;
    }
    if 2147483647 < n {
        return None;
    }
    Some(Rational {
        num: n as i32,
        den: 1,
    })
}

// The sum of a and another fraction, which is handed over by how far its numerator is above zero and how far below.
fn combined(a: Rational, above: u32, below: u32, den: u32) -> Option<Rational>
    requires above_bound { above ≤ 2147483648 }
    requires below_bound { below ≤ 2147483648 }
    ensures { result ≡ F.answer (sub_ℕ (I.up a.num * den + above * a.den) (I.down a.num * den + below * a.den)) (a.den * den) }
{
    let ups = cross(up(a.num), den, above, a.den);
    let downs = cross(down(a.num), den, below, a.den);
    parted(ups, downs, by(a.den, den))
}

#[tactic(auto, using(crate::proofs::Parts::sum_parts), unfolding(crate::specs::Fraction::sum))]
fn sum(a: Rational, b: Rational) -> Option<Rational>
    ensures { result ≡ F.sum a b }
{
    combined(a, up(b.num), down(b.num), b.den)
}

// What b is above zero is taken away, and what it is below is added.
#[tactic(auto, using(crate::proofs::Parts::difference_parts), unfolding(crate::specs::Fraction::difference))]
fn difference(a: Rational, b: Rational) -> Option<Rational>
    ensures { result ≡ F.difference a b }
{
    combined(a, down(b.num), up(b.num), b.den)
}

#[tactic(auto, using(crate::proofs::Parts::product_parts), unfolding(crate::specs::Fraction::product))]
fn product(a: Rational, b: Rational) -> Option<Rational>
    ensures { result ≡ F.product a b }
{
    let n = up(a.num);
    let m = down(a.num);
    let p = up(b.num);
    let q = down(b.num);
    let d = a.den;
    let e = b.den;
    parted(cross(n, p, m, q), cross(n, q, m, p), by(d, e))
}

impl Rational {
    // num / den: reduced first, tested against the limits then.
    pub fn new(num: i32, den: u32) -> Option<Rational>
        ensures { result ≡ F.answer num den }
    {
        if den == 1 {
            return whole(i64::from(num));
        }
        parted(u64::from(up(num)), u64::from(down(num)), u64::from(den))
    }

    // `add`, `minus` and `times` are alike but for the operation, in 64 bits for whole numbers and by parts for fractions, and for the law
    // that they cite: one function over both operations would be handed two closures and be no plainer.
    #[tactic(auto, using(crate::proofs::Whole::widened_sum))]
    pub fn add(self, other: Rational) -> Option<Rational>
        ensures { result ≡ F.sum self other }
    {
        if self.den == 1 && other.den == 1 {
            return whole(i64::from(self.num) + i64::from(other.num));
        }
        sum(self, other)
    }

    #[tactic(auto, using(crate::proofs::Whole::widened_difference))]
    pub fn minus(self, other: Rational) -> Option<Rational>
        ensures { result ≡ F.difference self other }
    {
        if self.den == 1 && other.den == 1 {
            return whole(i64::from(self.num) - i64::from(other.num));
        }
        difference(self, other)
    }

    #[tactic(auto, using(crate::proofs::Whole::widened_product))]
    pub fn times(self, other: Rational) -> Option<Rational>
        ensures { result ≡ F.product self other }
    {
        if self.den == 1 && other.den == 1 {
            return whole(i64::from(self.num) * i64::from(other.num));
        }
        product(self, other)
    }

    #[tactic(auto, using(crate::proofs::Parts::opposite_parts), unfolding(crate::specs::Fraction::opposite))]
    pub fn negate(self) -> Option<Rational>
        ensures { result ≡ F.opposite self }
    {
        parted(
            u64::from(down(self.num)),
            u64::from(up(self.num)),
            u64::from(self.den),
        )
    }

    #[tactic(auto, using(crate::proofs::Signs::same_fraction))]
    pub fn equals(self, other: Rational) -> bool
        ensures { result ≡ F.equal self other }
    {
        self == other
    }

    #[tactic(auto, using(crate::proofs::Signs::one_test), unfolding(crate::specs::Fraction::is_one))]
    pub fn is_one(self) -> bool
        ensures { result ≡ F.is_one self }
    {
        (0 < self.den) & (up(self.num) == self.den)
    }

    #[tactic(auto, using(crate::proofs::Signs::same_bits), unfolding(crate::specs::Fraction::is_zero))]
    pub fn is_zero(self) -> bool
        ensures { result ≡ F.is_zero self }
    {
        (0 < self.den) & (self.num == 0)
    }

    // Whether a catalog can declare it.
    #[tactic(auto, using(crate::proofs::Whole::gcd_one), unfolding(crate::specs::Fraction::declared))]
    pub fn declared(self) -> bool
        ensures { result ≡ F.declared self }
    {
        let n = size(self.num);
        let above = up(self.num);
        if self.den == 1 {
            return (n <= 32768) & (above <= 32767);
        }
        (n <= 32768)
            & (0 < self.den)
            & (self.den <= 32767)
            & (gcd(n, u64::from(self.den)) == 1)
            & (above <= 32767)
    }
}
