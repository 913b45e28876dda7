// Words, and the exponents and indexes that they stand for. `word` answers for every place; the table is indexed only where a place is known to be there.
ghost use Rattle.std.specs.Prelude.{◌≡◌, ◌<◌, length};
ghost use Rattle.dimension.specs.Integer as I;
ghost use Rattle.rules.specs.Table as T;
ghost use Rattle.table.specs.Shown.{exponents_of};

use dimension::{Dimensions, Rational};

pub fn word(t: &[u32], i: usize) -> u32
    ensures { result ≡ T.word t.now i }
{
    t.get(i).copied().unwrap_or(0)
}

// A word from 65,535 on names no kind; below, it fits 16 bits. 65,535 is the table's own word for none: words are lent, and hold no option. The test
// comes before the cast, so a `try_from` would test once more.
pub fn index_or(w: u32) -> Option<u16>
    ensures { result ≡ T.index_or w }
{
    if w < 65535 {
        return Some(w as u16);
    }
    None
}

// The kind that the word at p names.
pub(crate) fn index_at(t: &[u32], p: usize) -> Option<u16>
    ensures { result ≡ T.index_or (T.word t.now p) }
{
    index_or(word(t, p))
}

// The exponent of base b: the numerator's bits, then the denominator. A place of 32 bits keeps the sum from overflow, so that every place is answered; it
// goes by `as`, as no `From` takes so many bits to an index.
#[tactic(auto, unfolding(rules::specs::Table::exponent_from))]
pub fn exponent(t: &[u32], p: u32, b: u32) -> Rational
    ensures { result ≡ T.exponent_from t.now p b }
{
    let i = p as usize + 2 * b as usize;
    let num = dimension::signed32(word(t, i));
    let den = word(t, i + 1);
    Rational { num, den }
}

// The twelve exponents from place p on. Bases are counted in 32 bits, as `exponent` is asked for them, and go by `as` to an index. It is put into its
// callers: where it is called, a compilation of the largest catalog takes 80,000 instructions more.
#[inline(always)]
pub(crate) fn dims_from(t: &[u32], p: u32) -> Dimensions
    ensures { result ≡ T.dims_from t.now p }
{
    let mut d = Dimensions::one();
    for b in 0..12u32 {
        d.powers[b as usize] = exponent(t, p, b);
    }
    d
}

// The dimensions that 24 words by themselves stand for.
pub fn dims_in(w: &[u32]) -> Dimensions
    ensures { result ≡ T.dims_from w.now 0 }
{
    dims_from(w, 0)
}

// The bits that stand for a numerator.
fn num_word(x: Rational) -> u32
    ensures { I.twos 2147483648 result ≡ x.num }
{
    dimension::bits32(x.num)
}

// Twelve exponents, two words each, as a kind has them.
pub type Exponents = [u32; 24];

// The words of d.
pub fn words_of(d: Dimensions) -> Exponents
    ensures words_value { T.dims_from result 0 ≡ d }
    ensures words_len { length result ≡ 24 }
    ensures bits_value { result ≡ exponents_of d }
{
    let mut w = [0u32; 24];
    for b in 0..12 {
        let x = d.powers[b];
        w[2 * b] = num_word(x);
        w[2 * b + 1] = x.den;
    }
    w
}
