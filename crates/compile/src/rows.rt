// 12, 19 and 22 to 27: rows. The words t and rows are those of `Declared`, where rows are the ones before the row that is asked about. With the row and
// its number they go on as they are: a struct of the four would be opened at every use, and each contract would name the same four through it.
ghost use Rattle.std.specs.Prelude.{◌≡◌, cond, not, ◌&&◌, ◌<◌, ◌≤◌, eqb};
ghost use Rattle.laws.specs.Options.{is_some};
ghost use Rattle.rules.specs.Layout as layout;
ghost use Rattle.rules.specs.Catalog.{catalog_in};
ghost use Rattle.rules.specs.Compile as rule;
ghost use Rattle.rules.specs.Table as T;
ghost use Rattle.fitting.specs.Shown.{at};
ghost use Rattle.compile.specs.Shown.{ruled, ruled_all};
ghost use Rattle.compile.specs.Rows.{row_by_names, row_shown, pair_fresh, row_several, row_fits, row_derived, row_named};

use crate::answers::refused_at;
use crate::declared::Declared;
use catalog::{is_commutative, op_at, row_count, row_place};
use derive::{Graded, Several, derive, resolve_by};
use dimension::ProductOp;
use error::{Error, Fault, op_code};
use fitting::carries;
use joined::is_quotient;
use table::{is_point, is_resolved, row_of};
use written::Named;

// A row by the kinds that it names.
#[derive(Clone, Copy)]
struct Row {
    left: u16,
    op: ProductOp,
    right: u16,
    result: u16,
    commutative: bool,
}

// A row by what its ids name, where each names a kind.
#[tactic(auto, unfolding(crate::specs::Rows::row_by_names))]
fn row_by_names(ids: Named, op: ProductOp, commutative: bool) -> Option<Row>
    ensures { result ≡ row_by_names ids op commutative }
{
    Some(Row {
        left: ids.left?,
        op,
        right: ids.right?,
        result: ids.result?,
        commutative,
    })
}

// Row i: 22 before any id is asked for, then 12.
#[tactic(auto, using(crate::proofs::RowAsked::in_named, crate::proofs::RowAsked::row_quotient, crate::proofs::RowAsked::row_names))]
fn row_at(c: Declared, i: u16) -> Result<Row, Fault>
    requires { i < layout.row_count c.image.now }
    ensures { result ≡ row_shown (catalog_in c.entry.image.now) i }
{
    let p = row_place(c.image, i);
    let op = op_at(c.image, p);
    let commutative = is_commutative(c.image, p);
    if commutative & is_quotient(op) {
        return refused_at(Error::CommutativeQuotient(i), i);
    }
    let at = usize::from(i);
    row_by_names(c.named[at], op, commutative).ok_or(Error::Unknown(i).at(at))
}

// Whether a row in force is for left, operation and right.
fn is_taken(rows: &[u32], l: u16, op: ProductOp, r: u16) -> bool
    ensures { result ≡ is_some (T.rows_of rows.now l op r) }
{
    row_of(rows, l, op, r).is_some()
}

// 27 over the rows in force before row i, for the turned pair too.
#[tactic(auto, using(crate::proofs::RowSteps::freshness))]
fn check_fresh(rows: &[u32], row: Row, i: u16) -> Result<(), Fault>
    ensures { result ≡ ruled i (pair_fresh (T.rows_of rows.now) row) }
{
    let op = row.op;
    if is_taken(rows, row.left, op, row.right) {
        return refused_at(Error::ConflictingOperationRule(row.left, row.right), i);
    }
    if row.commutative & is_taken(rows, row.right, op, row.left) {
        return refused_at(Error::ConflictingOperationRule(row.right, row.left), i);
    }
    Ok(())
}

// 26, 27: several kinds must fit. The result is one of them, so one other ends the search.
#[tactic(auto, using(crate::proofs::RowSteps::steps))]
fn check_several(t: &[u32], rows: &[u32], row: Row, i: u16, x: Graded) -> Result<(), Fault>
    ensures { result ≡ ruled i (row_several (T.kinds_of t.now) (T.rows_of rows.now) row (at x.dims x.grade)) }
{
    let op = row.op;
    match resolve_by(t, row.left, op, row.right, x.dims, x.grade, row.result) {
        Several::Is(k) => refused_at(Error::DerivedOperationRule(k), i),
        Several::Many => check_fresh(rows, row, i),
        Several::Nothing => refused_at(Error::InvalidOperationRule(x.dims, x.grade), i),
    }
}

// 25, 26, 27, of what the row's product is derived as.
#[tactic(auto, using(crate::proofs::RowSteps::steps))]
fn check_fit(t: &[u32], rows: &[u32], row: Row, i: u16, x: Graded) -> Result<(), Fault>
    ensures { result ≡ ruled i (row_fits (T.kinds_of t.now) (T.rows_of rows.now) row (at x.dims x.grade)) }
{
    if !carries(t, x.dims, x.grade, row.result) {
        return refused_at(Error::InvalidOperationRule(x.dims, x.grade), i);
    }
    check_several(t, rows, row, i, x)
}

// The derivation's refusals, then 25 to 27. A `match`, since each of the two is a step of the rule: by `map_err` under `?` it is no plainer.
#[tactic(auto, using(crate::proofs::RowSteps::steps))]
fn check_derived(t: &[u32], rows: &[u32], row: Row, i: u16) -> Result<(), Fault>
    ensures { result ≡ ruled i (row_derived (T.kinds_of t.now) (T.rows_of rows.now) row) }
{
    match derive(t, row.left, row.op, row.right) {
        Ok(x) => check_fit(t, rows, row, i, x),
        Err(e) => refused_at(e, i),
    }
}

// 23 and 19 for the result, then what is derived: each test with what it names, in the order of this rule, and asked once. The same tests of a product or
// a rate have orders of their own.
#[tactic(auto, using(crate::proofs::RowSteps::steps))]
fn check_named(t: &[u32], rows: &[u32], row: Row, i: u16) -> Result<(), Fault>
    ensures { result ≡ ruled i (row_named (T.kinds_of t.now) (T.rows_of rows.now) row) }
{
    if is_point(t, row.result) {
        return refused_at(
            Error::Point(row.left, op_code(row.op), row.right, row.result),
            i,
        );
    }
    if !is_resolved(t, row.result) {
        return refused_at(Error::UnresolvedDimensions(row.result), i);
    }
    check_derived(t, rows, row, i)
}

// How many words a row enters: a commutative row of two kinds also those of the turned pair.
fn entered(row: Row) -> usize
    ensures { result ≡ cond (row.commutative && not (eqb row.left row.right)) 8 4 }
{
    if row.commutative & (row.left != row.right) {
        return 8;
    }
    4
}

// All rows, in order. The words of those in force before row i are the first `used`.
pub(crate) fn check_rows(c: Declared) -> Result<(), Fault>
    ensures { result ≡ ruled_all (rule.row_rule (catalog_in c.entry.image.now)) (layout.row_count c.entry.image.now) }
{
    let mut used: usize = 0;
    for i in 0..row_count(c.image) {
        let row = row_at(c, i)?;
        check_named(c.t, &c.rows[..used], row, i)?;
        used += entered(row);
    }
    Ok(())
}
