// Refusal 4: the lowest byte against the layout. Each function looks through one part of the image and stops at its first wrong byte. The bounds on places
// keep sums from overflowing: a type for a place would say no more and would have to be made at each sum.
ghost use Rattle.std.specs.Prelude.{◌≡◌, ℕ, ◌+◌, ◌*◌, ◌-◌, ◌<◌, ◌≤◌, min, Bool, List, length};
ghost use Rattle.rules.specs.Layout.{header_wrong, id_wrong, ids_wrong, exponent_wrong, kind_wrong, row_wrong, block_wrong, byte_wrong, kind_count, row_count};
ghost use Rattle.laws.specs.Options.{is_some};
ghost use Rattle.laws.specs.Ranges.{first_from};
ghost use Rattle.image.specs.Shown.{denominator_wrong, denominator_at, marks_wrong, counts_wrong, head_at, records_at, Follows};

use crate::search::{filled_before, first_filled};
use numbers::{byte_at, u16_at};

// Whether byte i of the id at p is a wrong one: no zero, and no sign at the front or after a sign.
#[tactic(auto, using(crate::proofs::Ids::in_id), unfolding(rules::specs::Layout::filled))]
fn id_byte_wrong(s: &[u8], p: usize, i: usize) -> bool
    requires { (p < 500000) × (i < 32) }
    ensures { result ≡ id_wrong s.now p (p + i) }
{
    let x = byte_at(s, p + i);
    (x != 0) & ((x < 33) | (126 < x) | ((0 < i) & !filled_before(s, p + i)))
}

// The same of an id that lies within the image: the test of a place that `byte_at` has would keep the loop over them from looking at many at once.
#[tactic(auto, using(crate::proofs::Ids::in_id_bytes))]
fn wrong_within(s: &[u8], p: usize, i: usize) -> bool
    requires p_nonzero { (0 < p) × (p + 32 ≤ length s.now) }
    requires i_bound { i < 32 }
    ensures { result ≡ id_wrong s.now p (p + i) }
{
    let x = s[p + i];
    let before = s[p + i - 1];
    (x != 0) & ((x < 33) | (126 < x) | ((0 < i) & (before == 0)))
}

// Whether a byte of an id that lies within the image is wrong. No byte ends the loop, so that many are looked at at once, as in
// `any_filled`, where it is counted what that saves. i is the byte's number in the id, by which `wrong_within` asks for the byte before it.
#[tactic(auto, using(laws::proofs::FirstFrom::anys))]
fn any_wrong(s: &[u8], p: usize) -> bool
    requires { (0 < p) × (p + 32 ≤ length s.now) }
    ensures { result ≡ is_some (first_from (id_wrong s.now p) p 32) }
{
    let mut any = false;
    for i in 0..32 {
        any = any | wrong_within(s, p, i);
    }
    any
}

// The first wrong byte of the id at p. Most ids have none, which is seen first.
#[tactic(auto, using(crate::proofs::Finds::finds))]
fn id_fault(s: &[u8], p: usize) -> Option<usize>
    requires { p < 500000 }
    ensures { result ≡ first_from (id_wrong s.now p) p 32 }
{
    if 0 < p && p + 32 <= s.len() && !any_wrong(s, p) {
        return None;
    }
    for i in 0..32 {
        if id_byte_wrong(s, p, i) {
            return Some(p + i);
        }
    }
    None
}

// The three ids with which a record at p begins.
#[tactic(auto, using(crate::proofs::Finds::finds, crate::proofs::Split::ids_split))]
fn ids_fault(s: &[u8], p: usize) -> Option<usize>
    requires { p < 400000 }
    ensures { result ≡ first_from (ids_wrong s.now p) p 96 }
{
    id_fault(s, p)
        .or_else(|| id_fault(s, p + 32))
        .or_else(|| id_fault(s, p + 64))
}

// Whether exponent b of the kind at p, of which dimensions are given, has a wrong denominator.
#[tactic(auto, unfolding(crate::specs::Shown::denominator_wrong))]
fn denominator_wrong(s: &[u8], p: usize, b: usize) -> bool
    requires { (p < 400000) × (b < 12) }
    ensures { result ≡ denominator_wrong s.now (p + 98 + 4 * b) }
{
    let d = u16_at(s, p + 98 + 4 * b);
    (d == 0) | (32767 < d)
}

// The first wrong denominator of twelve.
#[tactic(auto, using(crate::proofs::Finds::finds), unfolding(crate::specs::Shown::denominator_at))]
fn denominators_fault(s: &[u8], p: usize) -> Option<usize>
    requires { p < 400000 }
    ensures { result ≡ denominator_at s.now p 12 }
{
    for b in 0..12 {
        if denominator_wrong(s, p, b) {
            return Some(p + 98 + 4 * b);
        }
    }
    None
}

// By the flag, the image's own byte, which is compared here alone: 0 unresolved, 1 given, others unchecked.
#[tactic(auto, using(crate::proofs::Exponents::exponents_unresolved, crate::proofs::Exponents::exponents_unchecked, crate::proofs::Exponents::exponents_given))]
fn exponents_fault(s: &[u8], p: usize) -> Option<usize>
    requires { p < 400000 }
    ensures { result ≡ first_from (exponent_wrong s.now p) (p + 96) 48 }
{
    let flag = byte_at(s, p + 144);
    if flag == 0 {
        return first_filled(s, p + 96, 48);
    }
    if flag == 1 {
        return denominators_fault(s, p);
    }
    None
}

// The four bytes with which a record ends: two fields with the greatest value of each, and two unnamed bytes. A kind's flag and grade, a row's
// operation and commutative.
#[tactic(auto, using(crate::proofs::Split::marks_split))]
fn marks_fault(s: &[u8], p: usize, first: u8, second: u8) -> Option<usize>
    requires { p < 500000 }
    ensures { result ≡ first_from (marks_wrong s.now p first second) p 4 }
{
    if first < byte_at(s, p) {
        return Some(p);
    }
    if second < byte_at(s, p + 1) {
        return Some(p + 1);
    }
    first_filled(s, p + 2, 2)
}

#[tactic(auto, using(crate::proofs::Finds::finds, crate::proofs::Split::kind_split))]
pub(crate) fn kind_fault(s: &[u8], p: usize) -> Option<usize>
    requires { p < 300000 }
    ensures { result ≡ first_from (kind_wrong s.now p) p 148 }
{
    ids_fault(s, p)
        .or_else(|| exponents_fault(s, p))
        .or_else(|| marks_fault(s, p + 144, 1, 3))
}

#[tactic(auto, using(crate::proofs::Finds::finds, crate::proofs::Split::row_split))]
pub(crate) fn row_fault(s: &[u8], p: usize) -> Option<usize>
    requires { p < 300000 }
    ensures { result ≡ first_from (row_wrong s.now p) p 100 }
{
    ids_fault(s, p).or_else(|| marks_fault(s, p + 96, 3, 1))
}

// How many kinds and how many rows the header says. Read here and not by `catalog`, which stands beside this crate and is for images that passed it.
fn counts(s: &[u8]) -> (usize, usize)
    ensures kinds { result.0 ≡ kind_count s.now }
    ensures rows { result.1 ≡ row_count s.now }
    ensures upper_bound { (result.0 ≤ 65535) × (result.1 ≤ 65535) }
{
    (usize::from(u16_at(s, 8)), usize::from(u16_at(s, 10)))
}

// The blocks that the counts give, and what is charged to byte 8.
#[tactic(auto, unfolding(crate::specs::Shown::counts_wrong))]
fn counts_wrong(s: &[u8]) -> bool
    ensures { result ≡ counts_wrong s.now }
{
    let (kinds, rows) = counts(s);
    (240 < kinds) | (s.len() != 512 * (1 + (kinds + 2) / 3 + (rows + 4) / 5))
}

#[tactic(auto, using(crate::proofs::Finds::finds, crate::proofs::Header::counts_split))]
fn header_counts_fault(s: &[u8]) -> Option<usize>
    ensures { result ≡ first_from (header_wrong s.now) 0 12 }
{
    if let Some(i) = first_filled(s, 2, 2) {
        return Some(i);
    }
    if counts_wrong(s) {
        return Some(8);
    }
    let (_, rows) = counts(s);
    if 200 < rows {
        return Some(10);
    }
    None
}

#[tactic(auto, using(crate::proofs::Finds::finds, crate::proofs::Header::header_split))]
fn header_fault(s: &[u8]) -> Option<usize>
    ensures { result ≡ first_from (header_wrong s.now) 0 512 }
{
    header_counts_fault(s)
        .or_else(|| id_fault(s, 12))
        .or_else(|| id_fault(s, 44))
        .or_else(|| first_filled(s, 76, 432))
}

// The records that a block holds, of n in all, m to a block, where `from` are in the blocks before. The full block is a case of its own, so that
// the compiler knows how many records are looked through: with `m.min(n.saturating_sub(from))` the check of an image takes a fifth more instructions.
fn held(n: usize, from: usize, m: usize) -> usize
    ensures value { result ≡ min m (n - from) }
    ensures upper_bound { result ≤ m }
{
    if n < from {
        return 0;
    }
    if n - from < m {
        return n - from;
    }
    m
}

// The head of a block at p: its type and the number of its records. The type is the byte that stands there, 1 for kinds and 2 for rows: it is only
// compared, and an enum would be turned into this number for that.
#[tactic(auto, unfolding(crate::specs::Shown::head_at))]
fn head_fault(s: &[u8], p: usize, kind: u8, records: usize) -> Option<usize>
    requires { p < 300000 }
    ensures { result ≡ head_at s.now p kind records }
{
    if byte_at(s, p + 2) != kind {
        return Some(p + 2);
    }
    if usize::from(byte_at(s, p + 3)) != records {
        return Some(p + 3);
    }
    None
}

// The first fault of so many records of so many bytes from p on, by whatever rule a record's check goes.
#[tactic(auto, using(crate::proofs::Records::records_none, crate::proofs::Records::records_next, crate::proofs::Records::records_here))]
fn records_fault<F: Fn(usize) -> Option<usize>>(
    p: usize,
    bytes: usize,
    records: usize,
    fault: F,
) -> Option<usize>
    requires p_bound { p < 200000 }
    requires records_bound { bytes * records ≤ 504 }
    requires callable { (q : ℕ) → q < 300000 → F.pre fault q }
    ensures { (wrong : ℕ → ℕ → Bool) → Follows (F.post fault) wrong bytes → result ≡ records_at wrong bytes p records }
{
    for j in 0..records {
        if let Some(i) = fault(p + bytes * j) {
            return Some(i);
        }
    }
    None
}

// Block b of records, n in all, m to a block, that begins with record `from`. What the two kinds of blocks differ in are parameters: a struct of
// constants for each would be named once and opened here, so it is no plainer.
fn records_block_fault<F: Fn(usize) -> Option<usize>>(
    s: &[u8],
    b: usize,
    kind: u8,
    bytes: usize,
    m: usize,
    n: usize,
    from: usize,
    fault: F,
) -> Option<usize>
    requires b_bound { b < 200 }
    requires room { (0 < bytes) × (bytes * m ≤ 504) }
    requires callable { (q : ℕ) → q < 300000 → F.pre fault q }
    ensures { (wrong : List ℕ → ℕ → ℕ → Bool) → Follows (F.post fault) (wrong s.now) bytes → result ≡ first_from (block_wrong wrong kind bytes m n from s.now) (512 * b) 512 }
{
    let records = held(n, from, m);
    let p = 512 * b;
    if let Some(i) = head_fault(s, p, kind, records) {
        return Some(i);
    }
    if let Some(i) = records_fault(p + 4, bytes, records, fault) {
        return Some(i);
    }
    first_filled(s, p + 4 + bytes * records, 504 - bytes * records)
}

// Block b: the header, a block of kinds or a block of rows.
fn block_fault(s: &[u8], b: usize) -> Option<usize>
    requires { b < 200 }
    ensures { result ≡ first_from (byte_wrong s.now) (512 * b) 512 }
{
    if b == 0 {
        return header_fault(s);
    }
    let (kinds, rows) = counts(s);
    let k = (kinds + 2) / 3;
    if b <= k {
        return records_block_fault(s, b, 1, 148, 3, kinds, (b - 1) * 3, |q| kind_fault(s, q));
    }
    records_block_fault(s, b, 2, 100, 5, rows, (b - 1 - k) * 5, |q| row_fault(s, q))
}

// The lowest wrong byte of the first n blocks.
#[tactic(auto, using(crate::proofs::Whole::blocks, crate::proofs::Finds::finds))]
pub(crate) fn wrong_byte(s: &[u8], n: usize) -> Option<usize>
    requires { n ≤ 200 }
    ensures { result ≡ first_from (byte_wrong s.now) 0 (512 * n) }
{
    for b in 0..n {
        if let Some(i) = block_fault(s, b) {
            return Some(i);
        }
    }
    None
}
