// The exponents of `left op right`.
ghost use Rattle.std.specs.Prelude.{◌≡◌, ◌*◌, ◌<◌, length};
ghost use Rattle.dimension.specs.Integer as I;
ghost use Rattle.dimension.specs.declared.grade.ProductOp.TheVariants.{Div};
ghost use Rattle.rules.specs.Kinds.{same_op};
ghost use Rattle.rules.specs.Table as T;
ghost use Rattle.rules.specs.Arithmetic as rule;
ghost use Rattle.joined.specs.Shown.{joined_by, joined_dims, dims_at};

use crate::whole::{Whole, whole_of};
use dimension::{Dimensions, ProductOp, bits32, signed32};
use table::{Exponents, dims_of, words_of};

pub fn is_quotient(op: ProductOp) -> bool
    ensures { result ≡ same_op op Div }
{
    op == ProductOp::Div
}

// Exponents are added, in a quotient subtracted.
#[tactic(auto, using(crate::proofs::Quotients::quotients))]
pub fn joined(op: ProductOp, a: Dimensions, b: Dimensions) -> Dimensions
    ensures { result ≡ rule.joined op a b }
{
    if is_quotient(op) {
        return a.quotient(b).unwrap_or(Dimensions::one());
    }
    a.product(b).unwrap_or(Dimensions::one())
}

// The numerator of exponent i: none of the sums and differences of such whole numbers is over the limits. `div` stays a flag: a closure would have
// to require that its two numbers are so small, which here their own laws show, so it is no plainer.
#[tactic(auto, using(crate::proofs::Sums::minus_fits, crate::proofs::Sums::plus_fits))]
fn word_by(a: Whole, div: bool, b: Whole, i: usize) -> u32
    requires { i < 12 }
    ensures { result ≡ I.bits32 (joined_by div (I.twos 2147483648 (T.word a.entry.words.now (2 * i))) (I.twos 2147483648 (T.word b.entry.words.now (2 * i)))) }
{
    let x = signed32(a.words[2 * i]);
    let y = signed32(b.words[2 * i]);
    if div {
        return bits32(x - y);
    }
    bits32(x + y)
}

// The words of twelve such exponents.
fn whole_words(a: Whole, div: bool, b: Whole) -> Exponents
    ensures words_value { T.dims_from result 0 ≡ joined_dims div (T.dims_from a.entry.words.now 0) (T.dims_from b.entry.words.now 0) }
    ensures words_len { length result ≡ 24 }
{
    let mut w = [0u32; 24];
    for i in 0..12 {
        w[2 * i] = word_by(a, div, b, i);
        w[2 * i + 1] = 1;
    }
    w
}

// The words of the exponents of `left op right`. An unresolved kind counts as dimension one.
#[tactic(auto, using(crate::proofs::Sums::joined_whole))]
pub fn joined_words(t: &[u32], l: u16, op: ProductOp, r: u16) -> Exponents
    ensures words_value { T.dims_from result 0 ≡ rule.joined op (dims_at (T.kinds_of t.now) l) (dims_at (T.kinds_of t.now) r) }
    ensures words_len { length result ≡ 24 }
{
    if let (Some(a), Some(b)) = (whole_of(t, l), whole_of(t, r)) {
        return whole_words(a, is_quotient(op), b);
    }
    words_of(joined(op, dims_of(t, l), dims_of(t, r)))
}
