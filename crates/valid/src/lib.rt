// Which words are a table, and which are rows over its kinds (document 01's 40): counts, indexes, roles, grades and declared exponents in their
// ranges. Both answer for every list of words.
#![tactic(auto)]

mod exponents;
mod kinds;
mod marks;
mod rows;

ghost use Rattle.std.specs.Prelude.{◌≡◌};
ghost use Rattle.rules.specs.Table as T;

use crate::kinds::{head_fine, kinds_fine};
use crate::rows::rows_fine;
use table::{ROW, ROWS, word};

// Whether the words are a table. The counts come first, so that no more is read than a table has. They go by `as`, as no `From` takes 32 bits to an index.
#[tactic(auto, using(crate::proofs::Tables::tables, crate::proofs::Tables::few_told))]
pub fn is_table(t: &[u32]) -> bool
    ensures { result ≡ T.is_table t.now }
{
    if !head_fine(t) {
        return false;
    }
    if !kinds_fine(t, word(t, 0) as usize) {
        return false;
    }
    rows_fine(t, t, ROWS, word(t, 1) as usize)
}

// Whether lent words are rows over the table's kinds.
#[tactic(auto, using(crate::proofs::Tables::lent_short, crate::proofs::Tables::lent_rows))]
pub fn are_rows(t: &[u32], rows: &[u32]) -> bool
    ensures { result ≡ T.are_rows t.now rows.now }
{
    let n = rows.len();
    if n % ROW != 0 {
        return false;
    }
    rows_fine(t, rows, 0, n / ROW)
}
