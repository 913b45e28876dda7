// Grades 0 to 3 in the geometric algebra of three-dimensional space: of a product by four constant tables, and of a power. A grade is a number, here and
// in the crates above: it is a byte of an image and a word of a table, every number is answered, and an enum would be turned back for both.
ghost use Rattle.std.specs.Prelude.{◌≡◌, ◌/◌, ◌%◌, ◌<◌};
ghost use Rattle.dimension.specs.Grade as G;

use crate::rational::Rational;

// The products of two kinds.
#[derive(Clone, Copy, PartialEq, Eq)]
pub enum ProductOp {
    Mul,
    Div,
    Dot,
    Wedge,
}

// The grade of a scalar.
const SCALAR: u8 = 0;

// The grade of `a op b` stands at 4 a + b; 4 says that there is no single one. It stays a number here, and is an Option from `graded` on: 64 entries
// of `Some(..)` and `None` would be harder to read beside docs/GRADES.md, which prints the tables, and no shorter.
const MUL: [u8; 16] = [0, 1, 2, 3, 1, 4, 4, 4, 2, 4, 4, 4, 3, 4, 4, 4];

const DIV: [u8; 16] = [0, 4, 4, 4, 1, 4, 4, 4, 2, 4, 4, 4, 3, 4, 4, 4];

const DOT: [u8; 16] = [4, 4, 4, 4, 4, 0, 1, 2, 4, 1, 0, 1, 4, 2, 1, 0];

const WEDGE: [u8; 16] = [4, 4, 4, 4, 4, 2, 3, 4, 4, 3, 4, 4, 4, 4, 4, 4];

// What the table of op has at i.
fn entry(op: ProductOp, i: usize) -> u8
    requires { i < 16 }
    ensures { G.graded result ≡ G.rule op (i / 4) (i % 4) }
{
    match op {
        ProductOp::Mul => MUL[i],
        ProductOp::Div => DIV[i],
        ProductOp::Dot => DOT[i],
        ProductOp::Wedge => WEDGE[i],
    }
}

// What an entry says: a single grade, or that there is none.
fn graded(entry: u8) -> Option<u8>
    ensures { result ≡ G.graded entry }
{
    if entry < 4 { Some(entry) } else { None }
}

// The grade of `a op b`.
#[tactic(auto, unfolding(crate::specs::Grade::product))]
pub fn product_grade(op: ProductOp, a: u8, b: u8) -> Option<u8>
    ensures { result ≡ G.product op a b }
{
    if a <= 3 && b <= 3 {
        return graded(entry(op, 4 * usize::from(a) + usize::from(b)));
    }
    None
}

// The grade of a power of what has grade a.
#[tactic(auto, unfolding(crate::specs::Grade::power))]
pub fn power_grade(a: u8, exponent: Rational) -> Option<u8>
    ensures { result ≡ G.power a exponent }
{
    if exponent.is_one() {
        return graded(a);
    }
    if a == SCALAR {
        return Some(SCALAR);
    }
    None
}
