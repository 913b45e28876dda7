// Refusals in document 01's numbers.
ghost use Rattle.std.specs.Prelude.{◌≡◌, [], ◌∷◌, ◌≤◌};
ghost use Rattle.std.specs.declared.option.Option.TheVariants.{None, Some};
ghost use Rattle.error.specs.Shown.{says, said_of};

use crate::cause::Error;
use dimension::Dimensions;

// A refusal's number, the dimensions that it returns, and the values after them, the first `count` of four. The count stands beside them since no
// memory is asked for: four is the most that a refusal returns, and none returns more than its count says.
#[derive(Clone, Copy)]
pub struct Said {
    pub number: u32,
    pub dims: Option<Dimensions>,
    pub count: usize,
    pub values: [usize; 4],
}

// A number with values alone.
fn says<const N: usize>(number: u32, values: [usize; N]) -> Said
    requires { N ≤ 4 }
    ensures { result ≡ says number None values.entry }
{
    let mut all = [0; 4];
    all[..N].copy_from_slice(&values);
    Said {
        number,
        dims: None,
        count: N,
        values: all,
    }
}

// A number with dimensions and a grade.
fn says_dims(number: u32, dims: Dimensions, grade: u32) -> Said
    ensures { result ≡ says number (Some dims) (grade ∷ []) }
{
    Said {
        dims: Some(dims),
        ..says(number, [grade as usize])
    }
}

// 65,535 is what document 01 returns for a kind that isn't there: a value that is handed out and that nothing here reads again. A grade or a schema goes by `as`, as no `From` takes 32 bits to an index. It is no `From` itself: by
// its name the laws speak of it (`said_told`).
#[tactic(auto, unfolding(crate::specs::Shown::said_of))]
pub fn say(e: Error) -> Said
    ensures { result ≡ said_of e }
{
    match e {
        Error::ImageLength(n) => says(1, [n]),
        Error::WrongBlock(b) => says(2, [b]),
        Error::Schema(v) => says(3, [v as usize]),
        Error::WrongByte(i) => says(4, [i]),
        Error::Short(n) => says(5, [n]),
        Error::EmptyId(k) => says(10, [usize::from(k)]),
        Error::Duplicate(k) => says(11, [usize::from(k)]),
        Error::Unknown(i) => says(12, [usize::from(i)]),
        Error::AffineDimensionMismatch(k, d) => says(13, [usize::from(k), usize::from(d)]),
        Error::NestedAffineSpace(k, d) => says(14, [usize::from(k), usize::from(d)]),
        Error::InvalidDimensionlessKind(k) => says(15, [usize::from(k)]),
        Error::InvalidTimeKind(k) => says(16, [usize::from(k)]),
        Error::NoTimeKind(k, t) => says(17, [usize::from(k), usize::from(t), 65535]),
        Error::PointRate(k, t, p) => says(18, [usize::from(k), usize::from(t), usize::from(p)]),
        Error::UnresolvedDimensions(k) => says(19, [usize::from(k)]),
        Error::RateMismatch(d, g) => says_dims(20, d, g),
        Error::AlsoRateOf(k) => says(21, [usize::from(k)]),
        Error::CommutativeQuotient(i) => says(22, [usize::from(i)]),
        Error::Point(l, op, r, k) => says(
            23,
            [
                usize::from(l),
                usize::from(op),
                usize::from(r),
                usize::from(k),
            ],
        ),
        Error::Ungraded(l, r, a, b) => says(
            24,
            [usize::from(l), usize::from(r), a as usize, b as usize],
        ),
        Error::InvalidOperationRule(d, g) => says_dims(25, d, g),
        Error::DerivedOperationRule(k) => says(26, [usize::from(k)]),
        Error::ConflictingOperationRule(l, r) => says(27, [usize::from(l), usize::from(r)]),
        Error::PowerOverLimits(k) => says(28, [usize::from(k)]),
        Error::NoTable => says(40, [0]),
        Error::NoKind(k) => says(41, [usize::from(k)]),
        Error::KindMismatch(x, a) => says(42, [usize::from(x), usize::from(a)]),
        Error::UnsupportedOperation(c, l, r) => says(
            43,
            [usize::from(c), usize::from(l), usize::from(r)],
        ),
        Error::UnresolvedTwin(l, op, r, n) => says(44, [usize::from(n)]),
        Error::NoProductKind(d, g) => says_dims(45, d, g),
        Error::UngradedPower(g) => says(46, [g as usize]),
        Error::NoPowerKind(d) => says_dims(47, d, 0),
        Error::UnresolvedPowerTwin(k, e, n) => says(48, [usize::from(n)]),
        Error::NumberTerm(c, k) => says(49, [usize::from(c), usize::from(k)]),
        Error::Malformed(p) => says(50, [p]),
    }
}
