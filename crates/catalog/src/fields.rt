// What the kind or row record at a place declares beside its ids.
ghost use Rattle.std.specs.Prelude.{◌≡◌, ◌+◌, ◌*◌, ◌<◌};
ghost use Rattle.laws.specs.Options.{is_some, found};
ghost use Rattle.laws.specs.Ranges.{tab};
ghost use Rattle.dimension.specs.Integer as I;
ghost use Rattle.dimension.specs.Fraction as F;
ghost use Rattle.dimension.specs.Dimension as D;
ghost use Rattle.rules.specs.Kinds.{op_of};
ghost use Rattle.rules.specs.Catalog.{or_zero, exponent_at, kind_from, row_from};

use dimension::{Dimensions, ProductOp, Rational, ZERO, signed16};
use numbers::{byte_at, u16_at};

// num / den in lowest terms; what is no fraction reads as absent.
fn fraction(num: i32, den: u32) -> Rational
    ensures { result ≡ or_zero (F.answer num den) }
{
    Rational::new(num, den).unwrap_or(ZERO)
}

// An exponent from its two fields.
fn exponent(num: u16, den: u16) -> Rational
    ensures { result ≡ or_zero (F.answer (I.twos 32768 num) den) }
{
    fraction(signed16(num), u32::from(den))
}

// Exponent b of the kind at p.
#[tactic(auto, unfolding(rules::specs::Catalog::exponent_at))]
fn exponent_at(image: &[u8], p: u32, b: usize) -> Rational
    requires { b < 12 }
    ensures { result ≡ exponent_at image.now (p + 96 + 4 * b) }
{
    let at = p as usize + 96 + 4 * b;
    exponent(u16_at(image, at), u16_at(image, at + 2))
}

// The twelve exponents of the kind at p.
fn exponents_at(image: &[u8], p: u32) -> Dimensions
    ensures { result ≡ D.dimensions (tab (λ b. exponent_at image.now (p + 96 + 4 * b)) 12) }
{
    let mut powers = [ZERO; 12];
    for b in 0..12 {
        powers[b] = exponent_at(image, p, b);
    }
    Dimensions { powers }
}

// Whether the kind at p declares dimensions. It stands beside `dims_at`, and no Option of dimensions in place of both: both are public and answer for
// every place, which a function that can't fail keeps, and where the flag alone is wanted the Option would have the dimensions made.
#[tactic(auto, unfolding(rules::specs::Catalog::kind_from, rules::specs::Catalog::dims_at))]
pub fn is_given(image: &[u8], p: u32) -> bool
    ensures { result ≡ is_some (kind_from image.now p).dims }
{
    byte_at(image, p as usize + 144) == 1
}

// The dimensions of the kind at p; dimension one where they are unresolved.
#[tactic(auto, unfolding(rules::specs::Catalog::kind_from, rules::specs::Catalog::dims_at))]
pub fn dims_at(image: &[u8], p: u32) -> Dimensions
    ensures { result ≡ found (kind_from image.now p).dims (λ d. d) D.one }
{
    if is_given(image, p) {
        return exponents_at(image, p);
    }
    Dimensions::one()
}

#[tactic(auto, unfolding(rules::specs::Catalog::kind_from))]
pub fn grade_at(image: &[u8], p: u32) -> u8
    ensures { result ≡ (kind_from image.now p).grade }
{
    byte_at(image, p as usize + 145)
}

// The operation of a row: 0 Mul, 1 Div, 2 Dot, 3 Wedge. Not `Op::from_code` of `error`: that reads the code of a token, which is 4 to 7 for these, and
// answers with none for others, while every byte of a row is one of the four.
#[tactic(auto, unfolding(rules::specs::Kinds::op_of))]
fn op_of(code: u8) -> ProductOp
    ensures { result ≡ op_of code }
{
    match code {
        0 => ProductOp::Mul,
        1 => ProductOp::Div,
        2 => ProductOp::Dot,
        _ => ProductOp::Wedge,
    }
}

#[tactic(auto, unfolding(rules::specs::Catalog::row_from))]
pub fn op_at(image: &[u8], p: u32) -> ProductOp
    ensures { result ≡ (row_from image.now p).op }
{
    op_of(byte_at(image, p as usize + 96))
}

#[tactic(auto, unfolding(rules::specs::Catalog::row_from))]
pub fn is_commutative(image: &[u8], p: u32) -> bool
    ensures { result ≡ (row_from image.now p).commutative }
{
    byte_at(image, p as usize + 97) == 1
}
