// Two kinds combined, by an operation or by the code of its token.
ghost use Rattle.std.specs.Prelude.{◌≡◌};
ghost use Rattle.rules.specs.Arithmetic as rule;
ghost use Rattle.rules.specs.Table.{kinds_of, rows_of};
ghost use Rattle.error.specs.Shown.{op_of};
ghost use Rattle.registry.specs.Shown.{looked, combine_by};

use crate::products::product;
use crate::sums::{added, subtracted};
use error::{Error, Op};

#[tactic(auto, unfolding(rules::specs::Arithmetic::combine))]
pub fn combined(t: &[u32], rows: &[u32], op: Op, l: u16, r: u16) -> Result<u16, Error>
    ensures { result ≡ looked (rule.combine (kinds_of t.now) (rows_of rows.now) (op_of op) l r) }
{
    match op {
        Op::Add => added(t, l, r),
        Op::Sub => subtracted(t, l, r),
        Op::Product(op) => product(t, rows, l, op, r),
    }
}

// 2 Add, 3 Sub, 4 Mul, 5 Div, 6 Dot, 7 Wedge; any other code is 50. The code is lent as a number: an enum would ask more of a caller.
#[tactic(auto, using(crate::proofs::Coded::codes))]
pub fn combine(t: &[u32], rows: &[u32], code: u8, l: u16, r: u16) -> Result<u16, Error>
    ensures { result ≡ looked (combine_by (kinds_of t.now) (rows_of rows.now) code l r) }
{
    let op = Op::from_code(code).ok_or(Error::Malformed(0))?;
    combined(t, rows, op, l, r)
}
