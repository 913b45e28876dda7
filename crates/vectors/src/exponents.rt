// The group `exponents`: fractions reduced, added, subtracted and multiplied, and the products, quotients and powers of dimensions. A record is its
// operation in four bytes, and then left, right and result: exponents of 8 bytes, dimensions of 96.
ghost use Rattle.std.specs.Prelude.{true, ◌≡◌, ◌≤◌, IfSome};
ghost use Rattle.rules.specs.Bytes.{le4};
ghost use Rattle.dimension.specs.Fraction.{answer};
ghost use Rattle.vectors.specs.ExponentRecords as R;

use crate::walk;
use dimension::{Dimensions, Rational};
use numbers::u32_at;
use slices::after;
use std::io;
use stored::{Part, Tally, UNREADABLE, dimensions, exponent};

const GROUP: u32 = 1;

// Whether an answer is the stored one, numerator and denominator. By `==` of two Options it was proved too, with a law of 41 lines, and is no plainer.
fn is(found: Option<Rational>, stored: Rational) -> bool
    ensures { result ≡ true → found ≡ Some stored }
{
    found.is_some_and(|r| r == stored)
}

// Whether an answer is the stored one in all twelve bases. One function with `is` would compare both by `==`: of `Dimensions` that was tried, and its goal
// stayed open.
fn are(found: Option<Dimensions>, stored: Dimensions) -> bool
    ensures { result ≡ true → found ≡ Some stored }
{
    found.is_some_and(|d| d.equals(stored))
}

// What a record asks: the first four of exponents, the others of dimensions.
#[derive(Clone, Copy)]
enum Operation {
    Reduce,
    Add,
    Subtract,
    Multiply,
    Product,
    Quotient,
    Power,
}

// The operation that a record begins with, by its number; none if there is no such operation. No `TryFrom`: there is no error to tell.
#[tactic(auto, unfolding(crate::specs::ExponentRecords::number))]
fn operation_of(s: &[u8]) -> Option<Operation>
    ensures { IfSome result (λ o. R.number o ≡ le4 s.now 0) }
{
    match u32_at(s, 0) {
        0 => Some(Operation::Reduce),
        1 => Some(Operation::Add),
        2 => Some(Operation::Subtract),
        3 => Some(Operation::Multiply),
        4 => Some(Operation::Product),
        5 => Some(Operation::Quotient),
        6 => Some(Operation::Power),
        _ => None,
    }
}

// The bytes of a record.
fn size(operation: Operation) -> usize {
    match operation {
        Operation::Reduce | Operation::Add | Operation::Subtract | Operation::Multiply => 28,
        Operation::Product | Operation::Quotient => 292,
        Operation::Power => 204,
    }
}

fn reduced(e: Rational) -> Option<Rational>
    ensures { result ≡ answer e.num e.den }
{
    Rational::new(e.num, e.den)
}

// Whether the library answers the first record as the Rust did.
#[tactic(auto, using(crate::proofs::Agreeing::agreeing))]
fn agrees(s: &[u8], operation: Operation) -> bool
    requires { R.number operation ≡ le4 s.now 0 }
    ensures { result ≡ true → R.answer s.now ≡ R.stored s.now }
{
    match operation {
        Operation::Reduce => is(reduced(exponent(s, 4)), exponent(s, 20)),
        Operation::Add => is(exponent(s, 4).add(exponent(s, 12)), exponent(s, 20)),
        Operation::Subtract => is(exponent(s, 4).minus(exponent(s, 12)), exponent(s, 20)),
        Operation::Multiply => is(exponent(s, 4).times(exponent(s, 12)), exponent(s, 20)),
        Operation::Product => are(
            dimensions(s, 4).product(dimensions(s, 100)),
            dimensions(s, 196),
        ),
        Operation::Quotient => are(
            dimensions(s, 4).quotient(dimensions(s, 100)),
            dimensions(s, 196),
        ),
        Operation::Power => are(dimensions(s, 4).pow(exponent(s, 100)), dimensions(s, 108)),
    }
}

// The record that s begins with, which is one request; none if there is no such operation.
fn record(s: &[u8]) -> Option<Part>
    ensures { IfSome result (λ p. p.agreed ≤ 1) }
{
    let operation = operation_of(s)?;
    Some(Part {
        agreed: u32::from(agrees(s, operation)),
        size: size(operation),
    })
}

// How many of the records agree; none if they don't end with the file.
fn agreed(s: &[u8], records: u32) -> Option<u32>
    ensures { IfSome result (λ c. c ≤ records) }
{
    walk::agreed(s, records, record)
}

// A record is a request, so the header's two counts are one number.
fn counted(s: &[u8]) -> Tally {
    let requests = u32_at(s, 12);
    if u32_at(s, 8) != requests {
        return UNREADABLE;
    }
    Tally {
        agreed: agreed(after(s, 16), requests).unwrap_or(0),
        requests,
    }
}

pub(crate) fn replayed(rt: &HostRuntime) -> io::Result<Tally> {
    walk::replayed(rt, "exponents.bin", GROUP, counted)
}
