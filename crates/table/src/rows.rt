// Rows in force, four words each: left, operation, right, result. The operation sought is o, its word, made once before the scan: a row is compared with
// words. Left, o and right go on one by one, as the public lookup is given them: a struct of the three would be made there alone and say no more. A row is
// told by the place of its first word, as the rule tells it: with chunks of four each contract here would turn them back into such places.
ghost use Rattle.std.specs.Prelude.{◌≡◌, ◌+◌, ◌*◌, ◌/◌, ◌≤◌, length};
ghost use Rattle.laws.specs.Options.{is_some};
ghost use Rattle.laws.specs.Ranges.{first, first_from};
ghost use Rattle.rules.specs.Table as T;
ghost use Rattle.table.specs.Shown.{left_is, row_for};

use crate::places::{ROW, ROWS, op_word};
use crate::words::{index_at, word};
use dimension::ProductOp;
use slices::part;

// Whether one of the sixteen rows from row `from` on, all of them there, has this left kind. None of them ends the loop: with
// `first_row` alone, which asks of each row whether it is the one, a compilation of the largest catalog takes 1.63 million instructions in place of 1.48.
#[tactic(auto, using(laws::proofs::FirstFrom::anys), unfolding(crate::specs::Shown::left_is))]
fn any_left(s: &[u32], from: usize, l: u16) -> bool
    requires { 4 * (from + 16) ≤ length s.now }
    ensures { result ≡ is_some (first_from (left_is s.now l) from 16) }
{
    let mut any = false;
    for i in 0..16 {
        any = any | (s[ROW * (from + i)] == u32::from(l));
    }
    any
}

// Whether row i, which is there, is for that very left, operation and right.
#[tactic(auto, unfolding(crate::specs::Shown::row_for))]
fn row_for(s: &[u32], l: u16, o: u32, r: u16, i: usize) -> bool
    requires { 4 * (i + 1) ≤ length s.now }
    ensures { result ≡ row_for s.now l o r i }
{
    if s[ROW * i] != u32::from(l) {
        return false;
    }
    (s[ROW * i + 1] == o) & (s[ROW * i + 2] == u32::from(r))
}

// The first of the m rows from row `from` on, all of them there, that is for that very pair.
#[tactic(auto, using(laws::proofs::FirstFrom::spans))]
fn first_row(s: &[u32], from: usize, m: usize, l: u16, o: u32, r: u16) -> Option<usize>
    requires { 4 * (from + m) ≤ length s.now }
    ensures { result ≡ first_from (row_for s.now l o r) from m }
{
    for i in 0..m {
        if row_for(s, l, o, r, from + i) {
            return Some(from + i);
        }
    }
    None
}

// The first of the sixteen rows from row `from` on. They are passed over at once where none of them has this left kind.
#[tactic(auto, using(crate::proofs::Scanned::passed_over))]
fn of_sixteen(s: &[u32], from: usize, l: u16, o: u32, r: u16) -> Option<usize>
    requires { 4 * (from + 16) ≤ length s.now }
    ensures { result ≡ first_from (row_for s.now l o r) from 16 }
{
    if !any_left(s, from, l) {
        return None;
    }
    first_row(s, from, 16, l, o, r)
}

// The first row that is for that very pair: sixteen at a time, and then those that are left.
#[tactic(auto, using(laws::proofs::First::first_none, crate::proofs::Scanned::blocks))]
fn found_row(s: &[u32], l: u16, o: u32, r: u16) -> Option<usize>
    ensures { result ≡ first (row_for s.now l o r) (length s.now / 4) }
{
    let n = s.len() / ROW;
    for block in 0..n / 16 {
        if let Some(i) = of_sixteen(s, 16 * block, l, o, r) {
            return Some(i);
        }
    }
    first_row(s, n / 16 * 16, n % 16, l, o, r)
}

// The kind that the first row for a pair names.
#[tactic(auto, using(laws::proofs::First::first_below, crate::proofs::Scanned::row_none))]
pub fn row_of(rows: &[u32], l: u16, op: ProductOp, r: u16) -> Option<u16>
    ensures { result ≡ T.rows_of rows.now l op r }
{
    let i = found_row(rows, l, op_word(op), r)?;
    index_at(rows, ROW * i + 3)
}

// The rows that a table holds itself, behind its kinds: as many as its second word says. It goes by `as`, as no `From` takes 32 bits to an index.
#[tactic(auto, unfolding(rules::specs::Table::own_rows))]
pub fn own_rows(table: &[u32]) -> &[u32]
    ensures { result.now ≡ T.own_rows table.now }
{
    part(table, ROWS, ROW * word(table, 1) as usize)
}
