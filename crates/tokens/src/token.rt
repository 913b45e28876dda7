// Tokens from bytes: twelve bytes each, told apart by the code in the first.
ghost use Rattle.std.specs.Prelude.{◌≡◌, ◌+◌, ◌*◌, ◌/◌, ◌≤◌, length};
ghost use Rattle.dimension.specs.Integer as I;
ghost use Rattle.dimension.specs.Fraction as F;
ghost use Rattle.rules.specs.Bytes.{le2, le4};
ghost use Rattle.rules.specs.Formula.{unary, exact};
ghost use Rattle.rules.specs.Token.{token_by, token_at};
ghost use Rattle.tokens.specs.Shown.{coded, unused, made};

use dimension::{Rational, signed32};
use error::{ABSOLUTE, COMPARE, EXACT, INEXACT, Op};
use numbers::{byte_at, u16_at, u16_of, u32_at};

// What takes one term: a power with an exact exponent, in lowest terms within the limits, or an inexact one, and the absolute value.
#[derive(Clone, Copy)]
pub enum Unary {
    Exact(Rational),
    Inexact,
    Absolute,
}

// What takes two terms.
#[derive(Clone, Copy)]
pub enum Binary {
    Combine(Op),
    Compare,
}

// Unreadable is a case and no Option: it is one of the rules' tokens, and a walk refuses it as it does them.
#[derive(Clone, Copy)]
pub enum Token {
    Number,
    Kind(u16),
    Unary(Unary),
    Binary(Binary),
    Unreadable,
}

// A token's five fields. However they are read, one call makes the token of them, so that the compiler puts it there.
#[derive(Clone, Copy)]
struct Fields {
    code: u8,
    second: u8,
    index: u16,
    num: u32,
    den: u32,
}

// An exponent over the limits makes its token unreadable, as it is malformed whatever it is the exponent of.
#[tactic(auto, using(crate::proofs::Coded::power_is, crate::proofs::Coded::power_over))]
fn power(num: i32, den: u32) -> Token
    ensures { result ≡ coded (unary (exact (F.lowest num den))) }
{
    match Rational::new(num, den) {
        Some(e) => Token::Unary(Unary::Exact(e)),
        None => Token::Unreadable,
    }
}

// An exact power from the 32 bits of its numerator and its denominator.
fn exact_power(num: u32, den: u32) -> Token
    ensures { result ≡ coded (unary (exact (F.lowest (I.twos 2147483648 num) den))) }
{
    power(signed32(num), den)
}

// A token by its code, whatever the fields it doesn't use hold. Codes are lent bytes, and here they become cases. Kinds and operations are most of a
// formula, so they are asked first. 0 and 1, a number's code and a kind's, have no name: they are asked for in this file alone.
#[tactic(auto, unfolding(rules::specs::Token::token_by))]
fn token_by(f: Fields) -> Token
    ensures { result ≡ coded (token_by f.code f.index (F.lowest (I.twos 2147483648 f.num) f.den)) }
{
    if f.code == 1 {
        return Token::Kind(f.index);
    }
    if let Some(op) = Op::from_code(f.code) {
        return Token::Binary(Binary::Combine(op));
    }
    match f.code {
        0 => Token::Number,
        EXACT => exact_power(f.num, f.den),
        INEXACT => Token::Unary(Unary::Inexact),
        ABSOLUTE => Token::Unary(Unary::Absolute),
        COMPARE => Token::Binary(Binary::Compare),
        _ => Token::Unreadable,
    }
}

// Whether the fields that a code doesn't use are zero. The code is asked first, so that only these are looked at. It is still a number here, 1 for a kind,
// since the fields are tested before there is a token.
#[tactic(auto, unfolding(crate::specs::Shown::unused))]
fn unused_zero(f: Fields) -> bool
    ensures { result ≡ unused f.code f.second f.index f.num f.den }
{
    if f.code == 1 {
        return (f.second == 0) & (f.num == 0) & (f.den == 0);
    }
    if f.code == EXACT {
        return (f.second == 0) & (f.index == 0);
    }
    (f.second == 0) & (f.index == 0) & (f.num == 0) & (f.den == 0)
}

// A token from its five fields.
#[tactic(auto, unfolding(crate::specs::Shown::made, crate::specs::Shown::token_of))]
fn token_of(f: Fields) -> Token
    ensures { result ≡ coded (made f) }
{
    if unused_zero(f) {
        return token_by(f);
    }
    Token::Unreadable
}

// How many whole tokens the bytes hold.
pub fn token_count(bytes: &[u8]) -> usize
    ensures { result ≡ length bytes.now / 12 }
{
    bytes.len() / 12
}

// The 16-bit number at a place whose two bytes are there.
#[tactic(auto, unfolding(rules::specs::Bytes::le2))]
fn u16_within(bytes: &[u8], p: usize) -> u16
    requires { p + 2 ≤ length bytes.now }
    ensures { result ≡ le2 bytes.now p }
{
    u16_of(bytes[p], bytes[p + 1])
}

// The 32-bit number at a place whose four bytes are there.
#[tactic(auto, unfolding(rules::specs::Bytes::le4))]
fn u32_within(bytes: &[u8], p: usize) -> u32
    requires { p + 4 ≤ length bytes.now }
    ensures { result ≡ le4 bytes.now p }
{
    u32::from(u16_within(bytes, p)) + 65536 * u32::from(u16_within(bytes, p + 2))
}

// The fields of token k where its twelve bytes are all there, so that no place needs a test and each field is read at once. With `fields_past` alone a
// formula of 128 tokens takes 16,500 instructions more, and mixed128 over the catalog teaching then misses its goal (docs/SPEED.md: 59.4k of 73.5k).
#[tactic(auto, using(crate::proofs::Listed::token_fields), unfolding(crate::specs::Shown::made))]
fn fields_within(bytes: &[u8], k: usize) -> Fields
    requires { 12 * k + 12 ≤ length bytes.now }
    ensures { made result ≡ token_at bytes.now k }
{
    let p = 12 * k;
    Fields {
        code: bytes[p],
        second: bytes[p + 1],
        index: u16_within(bytes, p + 2),
        num: u32_within(bytes, p + 4),
        den: u32_within(bytes, p + 8),
    }
}

// The fields of token k, whatever lies past the end. Far past it there are only zeros; asking so first keeps 12 k small.
#[tactic(auto, using(crate::proofs::Listed::token_fields, crate::proofs::Listed::token_past), unfolding(crate::specs::Shown::made, crate::specs::Shown::token_of, crate::specs::Shown::unused, rules::specs::Token::token_by))]
fn fields_past(bytes: &[u8], k: usize) -> Fields
    ensures { made result ≡ token_at bytes.now k }
{
    if token_count(bytes) < k {
        return Fields {
            code: 0,
            second: 0,
            index: 0,
            num: 0,
            den: 0,
        };
    }
    let p = 12 * k;
    Fields {
        code: byte_at(bytes, p),
        second: byte_at(bytes, p + 1),
        index: u16_at(bytes, p + 2),
        num: u32_at(bytes, p + 4),
        den: u32_at(bytes, p + 8),
    }
}

// The fields of token k. Every token below the count has all its bytes.
fn fields_at(bytes: &[u8], k: usize) -> Fields
    ensures { made result ≡ token_at bytes.now k }
{
    if k < token_count(bytes) {
        return fields_within(bytes, k);
    }
    fields_past(bytes, k)
}

// Token k.
pub fn token_at(bytes: &[u8], k: usize) -> Token
    ensures { result ≡ coded (token_at bytes.now k) }
{
    token_of(fields_at(bytes, k))
}
