// The dimensions and grade of a product, or why it has none.
ghost use Rattle.std.specs.Prelude.{◌≡◌};
ghost use Rattle.dimension.specs.Grade as G;
ghost use Rattle.rules.specs.Table.{kinds_of};
ghost use Rattle.rules.specs.Arithmetic as rule;
ghost use Rattle.joined.specs.Shown.{dims_at};
ghost use Rattle.derive.specs.Shown.{ruled_as, derived};

use dimension::{Dimensions, ProductOp, product_grade};
use error::{Error, op_code};
use joined::joined;
use table::{dims_of, grade_of, is_point, is_resolved};

// Dimensions and a grade.
#[derive(Clone, Copy)]
pub struct Graded {
    pub dims: Dimensions,
    pub grade: u32,
}

// The grade of `left op right`; a word that is no byte is no grade.
#[tactic(auto, using(crate::proofs::GradeOver::grades_over))]
fn single_grade(op: ProductOp, a: u32, b: u32) -> Option<u8>
    ensures { result ≡ G.product op a b }
{
    product_grade(op, u8::try_from(a).ok()?, u8::try_from(b).ok()?)
}

#[tactic(auto, unfolding(rules::specs::Arithmetic::grade_by))]
fn grade_at(t: &[u32], l: u16, op: ProductOp, r: u16) -> Option<u8>
    ensures { result ≡ rule.grade_by (kinds_of t.now) op ((kinds_of t.now).grade l) ((kinds_of t.now).grade r) }
{
    single_grade(op, grade_of(t, l), grade_of(t, r))
}

fn joined_at(t: &[u32], l: u16, op: ProductOp, r: u16) -> Dimensions
    ensures { result ≡ rule.joined op (dims_at (kinds_of t.now) l) (dims_at (kinds_of t.now) r) }
{
    joined(op, dims_of(t, l), dims_of(t, r))
}

// The grade of a product: 19 left, 19 right, 23 left, 23 right, 24. No dimensions are made for it, so the flag that they are there is asked alone.
// Each test with what it names, in the order of this rule: a function of 19 or 23 would take as many lines as its two tests would lose.
// The grade by a `match`: `ok_or` would read both grades and make the refusal of every product, and `ok_or_else` over a closure is no plainer.
#[tactic(auto, using(crate::proofs::Derives::derives))]
pub fn ruled(t: &[u32], l: u16, op: ProductOp, r: u16) -> Result<u32, Error>
    ensures { result ≡ ruled_as (rule.derive (kinds_of t.now) l op r) }
{
    if !is_resolved(t, l) {
        return Err(Error::UnresolvedDimensions(l));
    }
    if !is_resolved(t, r) {
        return Err(Error::UnresolvedDimensions(r));
    }
    if is_point(t, l) {
        return Err(Error::Point(l, op_code(op), r, l));
    }
    if is_point(t, r) {
        return Err(Error::Point(l, op_code(op), r, r));
    }
    match grade_at(t, l, op, r) {
        Some(g) => Ok(u32::from(g)),
        None => Err(Error::Ungraded(l, r, grade_of(t, l), grade_of(t, r))),
    }
}

// The grade, and the dimensions with it.
#[tactic(auto, using(crate::proofs::Derives::with_dims))]
pub fn derive(t: &[u32], l: u16, op: ProductOp, r: u16) -> Result<Graded, Error>
    ensures { result ≡ derived (rule.derive (kinds_of t.now) l op r) }
{
    let grade = ruled(t, l, op, r)?;
    Ok(Graded {
        dims: joined_at(t, l, op, r),
        grade,
    })
}
