// The only kind that fits dimensions at a grade, sought until a second does; and from there on how many do. Kinds are of type usize here, since places in
// the table's words are made of them. There are at most 240, so an index goes back to 16 bits by `as`; a type for such an index would be made and read at
// each of the three searches alone.
ghost use Rattle.std.specs.Prelude.{◌≡◌, ◌&&◌, eqb, ◌+◌, ◌-◌, ◌*◌, ◌<◌, ◌≤◌, length};
ghost use Rattle.laws.specs.Ranges.{first_from};
ghost use Rattle.rules.specs.Kinds as K;
ghost use Rattle.rules.specs.Table.{word, kinds_of, kind_place, dims_from};
ghost use Rattle.fitting.specs.Shown.{at, fit_of, twins_from};

use crate::compared::pivot;
use crate::kind::fits_whole;
use table::{GRADE, KIND, KINDS, kind_count};

// The only kind that fits, the second of several, at which the search ended, or none: three cases, where an Option
// has two.
#[derive(Clone, Copy)]
pub enum Fit {
    Only(u16),
    Second(u16),
    Nothing,
}

// Whether the numerators of kind k at a and of the two bases behind it are x, y and z. Its words are all there, so that no place is tested. x, y and z are
// read once for all kinds: an array of them would be indexed by 0, 1 and 2 here, and be no plainer.
fn are_same(t: &[u32], k: usize, a: usize, x: u32, y: u32, z: u32) -> bool
    requires k_bound { k < 240 }
    requires a_bound { a < 20 }
    requires k_in_bounds { kind_place (k + 1) ≤ length t.now }
    ensures { result ≡ (eqb (word t.now (kind_place k + a)) x && eqb (word t.now (kind_place k + a + 2)) y && eqb (word t.now (kind_place k + a + 4)) z) }
{
    let p = KINDS + KIND * k + a;
    (t[p] == x) & (t[p + 2] == y) & (t[p + 4] == z)
}

// Whether kind k, whose words are all there, fits. The grade is asked first. Words and grade are two parameters, since public functions are lent them
// so: a struct of them would hold a borrow, be made in each of these, and say no more.
#[tactic(auto, using(crate::proofs::Worded::grade_differs))]
fn fits_within(t: &[u32], k: usize, w: &[u32], g: u32) -> bool
    requires k_bound { k < 240 }
    requires k_in_bounds { kind_place (k + 1) ≤ length t.now }
    ensures { result ≡ K.fits (kinds_of t.now) (at (dims_from w.now 0) g) k }
{
    if t[KINDS + KIND * k + GRADE] != g {
        return false;
    }
    fits_whole(t, k as u16, w, g)
}

// The place of a numerator to compare first, one that has two bases' behind it.
fn lead(w: &[u32]) -> usize
    ensures { result < 20 }
{
    pivot(w).min(18)
}

// The first kind from `from` on, of the first n, that fits. The words of all n are there, and most kinds differ in one of three numerators, which are
// those of w at a and of the two bases behind it: some 8 instructions for such a kind, 70 for another of the same grade. With `next_read` alone a
// compilation of the largest catalog takes 1.96 million in place of 1.48. `from` and n go one by one: the second search begins past what the first found.
#[tactic(auto, using(table::proofs::Spans::searches, crate::proofs::Searched::apart))]
fn next_within(t: &[u32], w: &[u32], g: u32, from: usize, n: usize, a: usize) -> Option<usize>
    requires n_in_bounds { kind_place n ≤ length t.now }
    requires in_bounds { 24 ≤ length w.now }
    requires a_bound { a < 20 }
    requires n_bound { n ≤ 240 }
    ensures { result ≡ first_from (K.fits (kinds_of t.now) (at (dims_from w.now 0) g)) from (n - from) }
{
    let x = w[a];
    let y = w[a + 2];
    let z = w[a + 4];
    for k in from..n {
        if !are_same(t, k, a, x, y, z) {
            continue;
        }
        if fits_within(t, k, w, g) {
            return Some(k);
        }
    }
    None
}

// The same where some of their words may be missing: words are lent, of any length, and this form has a test at each.
#[tactic(auto, using(table::proofs::Spans::searches))]
fn next_read(t: &[u32], w: &[u32], g: u32, from: usize, n: usize) -> Option<usize>
    requires { n ≤ 240 }
    ensures { result ≡ first_from (K.fits (kinds_of t.now) (at (dims_from w.now 0) g)) from (n - from) }
{
    for k in from..n {
        if fits_whole(t, k as u16, w, g) {
            return Some(k);
        }
    }
    None
}

// The first kind from `from` on, of the first n, that fits.
fn next_fit(t: &[u32], w: &[u32], g: u32, from: usize, n: usize) -> Option<usize>
    requires { n ≤ 240 }
    ensures { result ≡ first_from (K.fits (kinds_of t.now) (at (dims_from w.now 0) g)) from (n - from) }
{
    if (w.len() < 24) | (t.len() < KINDS + KIND * n) {
        return next_read(t, w, g, from, n);
    }
    next_within(t, w, g, from, n, lead(w))
}

// The only kind that fits, or the second of several, or none.
#[tactic(auto, using(crate::proofs::Room::few_kinds, table::proofs::Spans::span_in, crate::proofs::Searched::found_none, crate::proofs::Searched::found_only))]
pub fn only_fit(t: &[u32], w: &[u32], g: u32) -> Fit
    ensures { result ≡ fit_of (K.candidates (kinds_of t.now) (at (dims_from w.now 0) g)) }
{
    let n = usize::from(kind_count(t));
    let Some(i) = next_fit(t, w, g, 0, n) else {
        return Fit::Nothing;
    };
    match next_fit(t, w, g, i + 1, n) {
        Some(j) => Fit::Second(j as u16),
        None => Fit::Only(i as u16),
    }
}

// How many kinds fit, where k is the second of them: the search goes on past it. Each search begins behind what the last one found, so that the loop
// goes by what is found and no range is there for a `for`.
#[tactic(auto, using(crate::proofs::Room::few_kinds, table::proofs::Spans::span_in, crate::proofs::Twins::past_first, crate::proofs::Twins::past_end))]
pub fn twins_from(t: &[u32], w: &[u32], g: u32, k: u16) -> u16
    ensures { result ≡ twins_from (kinds_of t.now) (at (dims_from w.now 0) g) k }
{
    let n = usize::from(kind_count(t));
    let mut count: u16 = 2;
    let mut from = usize::from(k) + 1;
    while let Some(j) = next_fit(t, w, g, from, n) {
        count += 1;
        from = j + 1;
    }
    count
}
