// Rows in force as a list of row records: four numbers a row, as in the words of a table.
#![tactic(auto)]

ghost use Rattle.std.specs.Prelude.{[], ◌∷◌, ◌≡◌, take};
ghost use Rattle.rules.specs.Lookup as lone;
ghost use Rattle.rules.specs.Refusal.{twins_after};
ghost use Rattle.rules.specs.Table as T;
ghost use Rattle.lookup.specs.Shown.{op_by, placed};
ghost use Rattle.rows.specs.Flat.{flat};
ghost use Rattle.rows.specs.Records.{record_at, records};
ghost use Rattle.rows.specs.Standing.{standing};

use dimension::ProductOp;
use error::Fault;
use lookup::{combine, op_of};
use table::{index_or, op_word, word};
use valid::are_rows;

// A row in force. Its operation is a number as in a table's words, since a caller lends rows as numbers, in range or not.
#[derive(Clone, Copy)]
pub struct Row {
    pub left: u32,
    pub op: u32,
    pub right: u32,
    pub result: u32,
}

// Whether a row is for that very left, operation and right.
#[tactic(auto, unfolding(rules::specs::Table::is_row, crate::specs::Flat::flat))]
fn is_for(row: Row, l: u16, op: ProductOp, r: u16) -> bool
    ensures { result ≡ T.is_row (flat (row ∷ [])) l op r 0 }
{
    (row.left == u32::from(l)) & (row.op == op_word(op)) & (row.right == u32::from(r))
}

// The kind that the first row for a pair names.
#[tactic(auto, using(laws::proofs::First::first_none, crate::proofs::Words::row_next, crate::proofs::Words::row_here, crate::proofs::Words::row_end))]
pub fn row_in(rows: &[Row], l: u16, op: ProductOp, r: u16) -> Option<u16>
    ensures { result ≡ T.rows_of (flat rows.now) l op r }
{
    for row in rows {
        if is_for(*row, l, op, r) {
            return index_or(row.result);
        }
    }
    None
}

// Whether one row is a row over the table's kinds.
#[tactic(auto, unfolding(crate::specs::Flat::flat))]
fn is_fine(t: &[u32], row: Row) -> bool
    ensures { result ≡ T.are_rows t.now (flat (row ∷ [])) }
{
    let words = [row.left, row.op, row.right, row.result];
    are_rows(t, &words)
}

// Whether each row is a row over the table's kinds.
#[tactic(auto, using(laws::proofs::All::all_none, crate::proofs::Words::fine_next, crate::proofs::Words::fine_wrong, crate::proofs::Words::fine_end))]
pub fn are_rows_in(t: &[u32], rows: &[Row]) -> bool
    ensures { result ≡ T.are_rows t.now (flat rows.now) }
{
    for row in rows {
        if !is_fine(t, *row) {
            return false;
        }
    }
    true
}

// A lookup over the one row that names k.
fn with_row(
    table: &[u32],
    k: u16,
    twins: &mut [u16],
    code: u8,
    l: u16,
    r: u16,
) -> Result<u16, Fault>
    ensures value { result ≡ placed (lone.combine table.now (T.row_words l (op_by code) r k) twins.old code l r) }
    ensures twins_after { twins.new ≡ twins_after (lone.combine table.now (T.row_words l (op_by code) r k) twins.old code l r) twins.old }
{
    let words = [
        u32::from(l),
        op_word(op_of(code)),
        u32::from(r),
        u32::from(k),
    ];
    combine(table, &words, twins, code, l, r)
}

// A lookup over rows of which is known whether they are in range, and what the first for the pair names. `named` isn't read where `fine` is false; the
// pair stays, as a public signature: an enum of the three cases would ask more of a caller. The one word 0 stands for rows out of range, since words that
// are no whole row never are rows: the lookup takes words, so the list itself can't be handed on.
#[tactic(auto, unfolding(crate::specs::Standing::standing))]
pub fn combine_by(
    table: &[u32],
    fine: bool,
    named: Option<u16>,
    twins: &mut [u16],
    code: u8,
    l: u16,
    r: u16,
) -> Result<u16, Fault>
    ensures value { result ≡ placed (lone.combine table.now (standing fine named code l r) twins.old code l r) }
    ensures twins_after { twins.new ≡ twins_after (lone.combine table.now (standing fine named code l r) twins.old code l r) twins.old }
{
    if !fine {
        return combine(table, &[0], twins, code, l, r);
    }
    match named {
        Some(k) => with_row(table, k, twins, code, l, r),
        None => combine(table, &[], twins, code, l, r),
    }
}

// Two kinds combined by the code of a token, which is lent as a number as in `lookup`, over a lent list of rows.
#[tactic(auto, using(crate::proofs::Stands::stood))]
pub fn combine_rows(
    table: &[u32],
    rows: &[Row],
    twins: &mut [u16],
    code: u8,
    l: u16,
    r: u16,
) -> Result<u16, Fault>
    ensures value { result ≡ placed (lone.combine table.now (flat rows.now) twins.old code l r) }
    ensures twins_after { twins.new ≡ twins_after (lone.combine table.now (flat rows.now) twins.old code l r) twins.old }
{
    let fine = are_rows_in(table, rows);
    let named = row_in(rows, l, op_of(code), r);
    combine_by(table, fine, named, twins, code, l, r)
}

// Row i of the words; past their end, a row that is for no pair: no kind is 65,536, since a kind is two bytes. An Option would be asked of each row
// again, and the list is then no longer one of rows as the public call takes it.
#[tactic(auto, using(crate::proofs::Listed::listing))]
fn record_at(words: &[u32], i: usize) -> Row
    ensures { result ≡ record_at words.now i }
{
    if i < words.len() / 4 {
        return Row {
            left: word(words, 4 * i),
            op: word(words, 4 * i + 1),
            right: word(words, 4 * i + 2),
            result: word(words, 4 * i + 3),
        };
    }
    Row {
        left: 65536,
        op: 0,
        right: 0,
        result: 0,
    }
}

// The first 400 rows of the words. An array of fixed size, filled in place: no heap.
fn records(words: &[u32]) -> [Row; 400]
    ensures { result ≡ records words.now }
{
    let mut rows = [Row {
        left: 0,
        op: 0,
        right: 0,
        result: 0,
    }; 400];
    for i in 0..400 {
        rows[i] = record_at(words, i);
    }
    rows
}

// The kind that the first row for a pair names, of the first 400 rows of the words.
#[tactic(auto, using(crate::proofs::Listed::listed))]
pub fn row_among(words: &[u32], l: u16, op: ProductOp, r: u16) -> Option<u16>
    ensures { result ≡ T.rows_of (take 1600 words.now) l op r }
{
    let rows = records(words);
    row_in(&rows, l, op, r)
}
