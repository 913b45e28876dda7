// Why something is refused: a case for each cause of document 01's table, named after the Rust's errors where it has one. A case carries what 01
// returns, the dimensions too, and what names the twins, one by one, as the rules' refusals have them.
ghost use Rattle.std.specs.Prelude.{◌≡◌};
ghost use Rattle.error.specs.Shown.{fault};

use crate::fault::Fault;
use dimension::{Dimensions, Rational};

#[derive(Clone, Copy)]
pub enum Error {
    // lent buffers and bytes
    ImageLength(usize),
    WrongBlock(usize),
    Schema(u32),
    WrongByte(usize),
    Short(usize),
    // compilation
    EmptyId(u16),
    Duplicate(u16),
    Unknown(u16),
    AffineDimensionMismatch(u16, u16),
    NestedAffineSpace(u16, u16),
    InvalidDimensionlessKind(u16),
    InvalidTimeKind(u16),
    NoTimeKind(u16, u16),
    PointRate(u16, u16, u16),
    UnresolvedDimensions(u16),
    RateMismatch(Dimensions, u32),
    AlsoRateOf(u16),
    CommutativeQuotient(u16),
    // the code of the product's token, here and in UnresolvedTwin: a refusal hands it out, and is told whatever number it has
    Point(u16, u8, u16, u16),
    Ungraded(u16, u16, u32, u32),
    InvalidOperationRule(Dimensions, u32),
    DerivedOperationRule(u16),
    ConflictingOperationRule(u16, u16),
    // lookups and formulas
    PowerOverLimits(u16),
    NoTable,
    NoKind(u16),
    KindMismatch(u16, u16),
    // the code of the token, here and in NumberTerm: only handed out, and those of powers, absolute and compare are among them, which no `Op` is. The third
    // number is 65,535 where 43 returns that for a kind that isn't there: the rules' refusal has it so, and `say` alone reads it
    UnsupportedOperation(u8, u16, u16),
    // left, operation, right and how many kinds fit
    UnresolvedTwin(u16, u8, u16, u16),
    NoProductKind(Dimensions, u32),
    UngradedPower(u32),
    NoPowerKind(Dimensions),
    // base, exponent and how many kinds fit
    UnresolvedPowerTwin(u16, Rational, u16),
    NumberTerm(u8, u16),
    Malformed(usize),
}

impl Error {
    // Refused at a place.
    pub fn at(self, place: usize) -> Fault
        ensures { result ≡ fault place self }
    {
        Fault { place, error: self }
    }
}
