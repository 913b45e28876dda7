// Rows, four words each, over the kinds of a table. They are told by places in words, as the rule for a row is: with chunks of four each
// contract here would turn them back into such places, and for words that may be missing there are no chunks.
ghost use Rattle.std.specs.Prelude.{◌≡◌, ◌+◌, ◌*◌, ◌<◌, ◌≤◌, length};
ghost use Rattle.laws.specs.Ranges.{all};
ghost use Rattle.rules.specs.Table as T;

use table::{ROW, word};

// The row whose words begin at p of s, over the kinds of t, for words that may be missing: they are lent, of any length.
#[tactic(auto, unfolding(rules::specs::Table::row_fine))]
fn row_fine(t: &[u32], s: &[u32], p: usize) -> bool
    requires { p < 9223372036854775808 }
    ensures { result ≡ T.row_fine t.now s.now p }
{
    let n = word(t, 0);
    (word(s, p) < n) & (word(s, p + 1) < 4) & (word(s, p + 2) < n) & (word(s, p + 3) < n)
}

// The m rows of s from place p on, all of them there. None of them ends the loop, and each of a row's words has a test of its own to gather into: some 7
// instructions a row. With `row_fine` alone a call over the largest catalog takes some 17,000 more, where a lone product takes 25,900 in all.
fn rows_within(t: &[u32], s: &[u32], p: usize, m: usize) -> bool
    requires { p + 4 * m ≤ length s.now }
    ensures { result ≡ all (λ i. T.row_fine t.now s.now (p + 4 * i)) m }
{
    let n = word(t, 0);
    let mut lefts = true;
    let mut ops = true;
    let mut rights = true;
    let mut results = true;
    for i in 0..m {
        let q = p + ROW * i;
        lefts = lefts & (s[q] < n);
        ops = ops & (s[q + 1] < 4);
        rights = rights & (s[q + 2] < n);
        results = results & (s[q + 3] < n);
    }
    lefts & ops & rights & results
}

// The m rows of s from place p on, over the kinds of t.
pub(crate) fn rows_fine(t: &[u32], s: &[u32], p: usize, m: usize) -> bool
    requires { p + 4 * m < 9223372036854775808 }
    ensures { result ≡ all (λ i. T.row_fine t.now s.now (p + 4 * i)) m }
{
    if p + ROW * m <= s.len() {
        return rows_within(t, s, p, m);
    }
    for i in 0..m {
        if !row_fine(t, s, p + ROW * i) {
            return false;
        }
    }
    true
}
