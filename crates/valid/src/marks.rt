// Flag, grade, role and links, in their ranges, of a kind and of all kinds. Flag and role are the table's own numbers: a caller lends words, and what is
// asked here is whether they are such numbers at all.
ghost use Rattle.std.specs.Prelude.{◌≡◌, ◌+◌, ◌*◌, ◌<◌, ◌≤◌, ◌||◌, length, if◌then◌else◌, ◌==◌, nat_eq, nat_lt};
ghost use Rattle.laws.specs.Ranges.{all};
ghost use Rattle.rules.specs.Table as T;
ghost use Rattle.valid.specs.Shown.{role_fine};

use table::{DIFFERENCE, FLAG, GRADE, KIND, KINDS, RATE, ROLE, TARGET, word};

// The index of one of n kinds, or none, which is 65,535 here and below: the table's own word, since words are lent and hold no option.
pub(crate) fn link_fine(w: u32, n: u32) -> bool
    ensures { result ≡ (nat_lt w n || w == 65535) }
{
    (w < n) | (w == 65535)
}

// A point's difference is a kind; no other has one.
fn role_fine(role: u32, difference: u32, n: u32) -> bool
    ensures { result ≡ (if nat_eq role 1 then nat_lt difference n else (difference == 65535)) }
{
    if role == 1 {
        return difference < n;
    }
    difference == 65535
}

// Flag, grade, role and links of the kind whose words begin at p, for words that may be missing: they are lent, of any length.
#[tactic(auto, unfolding(rules::specs::Table::marks_fine))]
pub(crate) fn marks_fine(t: &[u32], p: usize) -> bool
    requires { p < 4294967296 }
    ensures { result ≡ T.marks_fine t.now p }
{
    let n = word(t, 0);
    let role = word(t, p + ROLE);
    (word(t, p + FLAG) < 2)
        & (word(t, p + GRADE) < 4)
        & (role < 3)
        & role_fine(role, word(t, p + DIFFERENCE), n)
        & link_fine(word(t, p + TARGET), n)
        & link_fine(word(t, p + RATE), n)
}

// The word at q is the index of a kind, or none, as most are, so that is asked first. This and the next are `link_fine` and `role_fine` for words that are
// there; `marks_within` has what that saves.
fn link_within(t: &[u32], q: usize) -> bool
    requires { q < length t.now }
    ensures { result ≡ T.link_fine t.now (T.word t.now q) }
{
    if t[q] == 65535 {
        return true;
    }
    t[q] < word(t, 0)
}

// The role, and the difference that goes with it.
#[tactic(auto, using(crate::proofs::Marked::roles))]
fn role_within(t: &[u32], p: usize) -> bool
    requires { p + 32 ≤ length t.now }
    ensures { result ≡ role_fine t.now p }
{
    if t[p + ROLE] == 1 {
        return t[p + DIFFERENCE] < word(t, 0);
    }
    (t[p + ROLE] < 3) & (t[p + DIFFERENCE] == 65535)
}

// The marks of a kind whose words are all there, so that no place needs a test. Each is read only once those before it are fine. With `marks_fine` alone a
// call over the largest catalog takes some 3,000 instructions more, where a lone product takes 25,900 in all.
#[tactic(auto, using(crate::proofs::Marked::marked))]
fn marks_within(t: &[u32], p: usize) -> bool
    requires { p + 32 ≤ length t.now }
    ensures { result ≡ T.marks_fine t.now p }
{
    if 2 <= t[p + FLAG] {
        return false;
    }
    if 4 <= t[p + GRADE] {
        return false;
    }
    if !role_within(t, p) {
        return false;
    }
    if !link_within(t, p + TARGET) {
        return false;
    }
    link_within(t, p + RATE)
}

// The marks of n kinds, all of them there.
pub(crate) fn all_marks(t: &[u32], n: usize) -> bool
    requires { 16 + 32 * n ≤ length t.now }
    ensures { result ≡ all (λ k. T.marks_fine t.now (T.kind_place k)) n }
{
    for k in 0..n {
        if !marks_within(t, KINDS + KIND * k) {
            return false;
        }
    }
    true
}
