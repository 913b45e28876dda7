// An image compiled, and the answer and the table's words compared with a stored answer: a refusal as any other, or the kinds and then the rows in
// force, ten bytes each.
ghost use Rattle.std.specs.Prelude.{◌≡◌, ◌+◌, ◌*◌, ◌≤◌};
ghost use Rattle.replay.specs.Compiled as C;

use crate::kinds::{is_kind, is_pair};
use crate::pieces::Compared;
use error::Fault;
use numbers::{byte_at, u16_at, u32_at};
use slices::after;
use table::{KIND, KINDS, ROW, ROWS, word};

// Four words more than a compilation writes.
const LENT: usize = 9300;

// What the table holds before.
const UNWRITTEN: u32 = 2863311530;

#[tactic(auto, unfolding(crate::specs::Compiled::kind_size))]
fn kind_size(s: &[u8]) -> usize
    ensures value { result ≡ C.kind_size s.now }
    ensures upper_bound { result ≤ 1540 }
{
    10 + 6 * usize::from(byte_at(s, 3))
}

// Where the first n kinds end.
#[tactic(auto, using(crate::proofs::Compared::next_kind, crate::proofs::Compared::first_kind))]
fn kinds_end(s: &[u8], n: u16) -> usize
    ensures value { result ≡ C.kind_at s.now n }
    ensures upper_bound { result ≤ 8 + 1540 * n }
{
    let mut at: usize = 8;
    for _ in 0..n {
        at += kind_size(after(s, at));
    }
    at
}

#[tactic(auto, using(crate::proofs::Compared::kind_differs, crate::proofs::Compared::kind_here_law, crate::proofs::Compared::next_kind, crate::proofs::Compared::first_kind, laws::proofs::All::alls), unfolding(crate::specs::Compiled::kinds_as))]
fn are_kinds(s: &[u8], t: &[u32]) -> bool
    ensures { result ≡ C.kinds_as s.now t.now }
{
    let mut at: usize = 8;
    for k in 0..u16_at(s, 4) {
        let rest = after(s, at);
        if !is_kind(rest, after(t, KINDS + KIND * usize::from(k))) {
            return false;
        }
        at += kind_size(rest);
    }
    true
}

#[tactic(auto, unfolding(crate::specs::Compiled::row_as))]
fn is_row(s: &[u8], t: &[u32], i: u16) -> bool
    ensures { result ≡ C.row_as s.now t.now i }
{
    let at = 10 * usize::from(i);
    let place = ROWS + ROW * usize::from(i);
    is_pair(
        after(t, place),
        u32::from(u16_at(s, at)),
        u32::from(u16_at(s, at + 2)),
    ) & is_pair(
        after(t, place + 2),
        u32::from(u16_at(s, at + 4)),
        u32::from(u16_at(s, at + 6)),
    )
}

fn are_rows(s: &[u8], t: &[u32]) -> bool
    ensures { result ≡ C.rows_as s.now t.now }
{
    let rest = after(s, kinds_end(s, u16_at(s, 4)));
    (0..u16_at(s, 6)).all(|i| is_row(rest, t, i))
}

#[tactic(auto, unfolding(crate::specs::Compiled::counts_as))]
fn are_counts(s: &[u8], t: &[u32]) -> bool
    ensures { result ≡ C.counts_as s.now t.now }
{
    // 3 begins a compilation in the files (docs/VECTORS.md).
    (u32_at(s, 0) == 3) & is_pair(t, u32::from(u16_at(s, 4)), u32::from(u16_at(s, 6)))
}

#[tactic(auto, unfolding(crate::specs::Compiled::compiled_as))]
fn is_compiled(s: &[u8], t: &[u32]) -> bool
    ensures { result ≡ C.compiled_as s.now t.now }
{
    are_counts(s, t) & are_kinds(s, t) & are_rows(s, t)
}

// Whether no word from n on was written.
fn untouched(t: &[u32], n: usize) -> bool
    ensures { result ≡ C.untouched t.now n }
{
    after(t, n).iter().all(|word| *word == UNWRITTEN)
}

#[tactic(auto, unfolding(crate::specs::Compiled::fine_as))]
fn is_fine(s: &[u8], t: &[u32]) -> bool
    ensures { result ≡ C.fine_as s.now t.now }
{
    is_compiled(s, t) & untouched(t, 9296)
}

#[tactic(auto, unfolding(crate::specs::Compiled::refused_as))]
fn is_refused(s: &[u8], fault: Fault, t: &[u32]) -> bool
    ensures { result ≡ C.refused_as s.now fault t.now }
{
    stored::is_refusal(s, fault, &[]) & untouched(t, 0)
}

#[tactic(auto, unfolding(crate::specs::Compiled::answered_as))]
fn is_answered(s: &[u8], answer: Result<(), Fault>, t: &[u32]) -> bool
    ensures { result ≡ C.answered_as s.now answer t.now }
{
    match answer {
        Ok(()) => is_fine(s, t),
        Err(fault) => is_refused(s, fault, t),
    }
}

// Whether the image is compiled as s begins by saying.
fn agrees(s: &[u8], image: &[u8]) -> bool
    ensures { result ≡ C.compiled_so s.now image.now }
{
    let mut table = [UNWRITTEN; LENT];
    let answer = compile::compile(image, &mut table);
    is_answered(s, answer, &table)
}

// The bytes of the stored answer.
#[tactic(auto, unfolding(crate::specs::Compiled::answer_size))]
fn size(s: &[u8]) -> usize
    ensures value { result ≡ C.answer_size s.now }
    ensures upper_bound { result ≤ 101579258 }
{
    if byte_at(s, 0) == 3 {
        return kinds_end(s, u16_at(s, 4)) + 10 * usize::from(u16_at(s, 6));
    }
    stored::answer_size(s)
}

// Both, of the answer that s begins with.
pub(crate) fn compared(s: &[u8], image: &[u8]) -> Compared
    ensures { result.agrees ≡ C.compiled_so s.now image.now }
{
    Compared {
        agrees: agrees(s, image),
        size: size(s),
    }
}
