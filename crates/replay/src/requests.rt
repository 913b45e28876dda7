// A request with its stored answer, by the group of its file. A lookup is 16 bytes: its code, left or base, numerator, denominator and right. A
// formula is its number of tokens in four bytes, and then 12 bytes for each token.
ghost use Rattle.std.specs.Prelude.{◌≡◌, ◌<◌, ◌≤◌, length};
ghost use Rattle.rules.specs.Refusal.{twins_after};
ghost use Rattle.lookup.specs.Shown.{placed, exponent_of};
ghost use Rattle.formula.specs.Shown.{termed};
ghost use Rattle.replay.specs.Requests as R;

use dimension::signed32;
use error::{Fault, INEXACT};
use formula::Term;
use lookup::Exponent;
use numbers::{byte_at, u16_at, u32_at};
use slices::{after, part};
use stored::{is_kind, is_number, is_refusal};
use table::own_rows;

// What a file has requests for. It is no closure: what is asked and how many bytes a request has are
// told apart, also in the contracts: `replay` promises `agreed_of` and `place_of` by the group, which a closure's contract would have to carry.
#[derive(Clone, Copy)]
pub(crate) enum Requests {
    Lookups,
    Formulas,
}

// The number of a file's group, in its header.
#[tactic(auto, unfolding(crate::specs::Requests::group_of))]
pub(crate) fn group_of(requests: Requests) -> u32
    ensures { result ≡ R.group_of requests }
{
    match requests {
        Requests::Lookups => 3,
        Requests::Formulas => 4,
    }
}

// What the twin list holds before each request: the index of no kind.
const UNWRITTEN: u16 = 54321;

// The exponent of a power, as it is handed over.
#[tactic(auto, using(crate::proofs::Asked::is_exact), unfolding(crate::specs::Requests::exponent_in))]
fn exponent(s: &[u8]) -> Exponent
    ensures { exponent_of result ≡ R.exponent_in s.now }
{
    // The code of an operation as the file has it (docs/VECTORS.md), above 7 for any power. No enum: `lookup::combine` takes the code itself, so that one
    // would be turned back.
    if byte_at(s, 0) == INEXACT {
        return Exponent::Inexact;
    }
    Exponent::Exact(signed32(u32_at(s, 4)), u32_at(s, 8))
}

// The table and the twin list go on one by one, here and below, as `lookup` and `call` take them: the one is read and the other written.
#[tactic(auto, unfolding(crate::specs::Requests::lookup_of))]
fn look_up(s: &[u8], table: &[u32], twins: &mut [u16]) -> Result<u16, Fault>
    ensures value { result ≡ placed (R.lookup_of s.now table.now twins.old) }
    ensures twins_after { twins.new ≡ twins_after (R.lookup_of s.now table.now twins.old) twins.old }
{
    let code = byte_at(s, 0);
    if 7 < code {
        return lookup::power(table, twins, u16_at(s, 2), exponent(s));
    }
    lookup::combine(
        table,
        own_rows(table),
        twins,
        code,
        u16_at(s, 2),
        u16_at(s, 12),
    )
}

#[tactic(auto, unfolding(crate::specs::Requests::formula_of))]
fn run(s: &[u8], table: &[u32], twins: &mut [u16]) -> Result<Term, Fault>
    ensures value { result ≡ termed (R.formula_of s.now table.now twins.old) }
    ensures twins_after { twins.new ≡ twins_after (R.formula_of s.now table.now twins.old) twins.old }
{
    let tokens = part(s, 4, 12 * usize::from(u16_at(s, 0)));
    call::call(table, own_rows(table), twins, tokens)
}

// A lookup's kind is told as a formula's.
#[tactic(auto, unfolding(crate::specs::Requests::answer_of, crate::specs::Requests::twins_of, lookup::specs::Shown::placed))]
fn answer(s: &[u8], requests: Requests, table: &[u32], twins: &mut [u16]) -> Result<Term, Fault>
    ensures value { result ≡ R.answer_of requests s.now table.now twins.old }
    ensures twins_after { twins.new ≡ R.twins_of requests s.now table.now twins.old }
{
    match requests {
        Requests::Lookups => look_up(s, table, twins).map(Term::Kind),
        Requests::Formulas => run(s, table, twins),
    }
}

// The bytes of the request that s begins with.
#[tactic(auto, unfolding(crate::specs::Requests::request_size))]
fn request_size(s: &[u8], requests: Requests) -> usize
    ensures value { result ≡ R.request_size requests s.now }
    ensures upper_bound { result ≤ 786424 }
{
    match requests {
        Requests::Lookups => 16,
        Requests::Formulas => 4 + 12 * usize::from(u16_at(s, 0)),
    }
}

// And those of the request with its answer.
#[tactic(auto, unfolding(crate::specs::Requests::whole_size))]
pub(crate) fn size(s: &[u8], requests: Requests) -> usize
    ensures value { result ≡ R.whole_size requests s.now }
    ensures upper_bound { result ≤ 1179642 }
{
    let n = request_size(s, requests);
    n + stored::answer_size(after(s, n))
}

// Whether no twin from n on was written.
fn kept(twins: &[u16], n: usize) -> bool
    ensures { result ≡ R.kept twins.now n }
{
    after(twins, n).iter().all(|twin| *twin == UNWRITTEN)
}

// Whether the answer that s begins with is this one, with this twin list.
#[tactic(auto, unfolding(crate::specs::Requests::stored_as))]
fn is_stored(s: &[u8], answer: Result<Term, Fault>, twins: &[u16]) -> bool
    ensures { result ≡ R.stored_as s.now answer twins.now }
{
    match answer {
        Ok(Term::Number) => is_number(s),
        Ok(Term::Kind(k)) => is_kind(s, k),
        Err(fault) => is_refusal(s, fault, twins),
    }
}

#[tactic(auto, unfolding(crate::specs::Requests::confirmed))]
fn confirmed(s: &[u8], answer: Result<Term, Fault>, twins: &[u16]) -> bool
    ensures { result ≡ R.confirmed s.now answer twins.now }
{
    is_stored(s, answer, twins) & kept(twins, usize::from(u16_at(s, 6)))
}

// Whether the first request is answered as it is stored.
#[tactic(auto, unfolding(crate::specs::Requests::agreed))]
pub(crate) fn agrees(s: &[u8], requests: Requests, table: &[u32]) -> bool
    ensures { result ≡ R.agreed requests s.now table.now }
{
    let mut twins = [UNWRITTEN; 240];
    let answer = answer(s, requests, table, &mut twins);
    confirmed(after(s, request_size(s, requests)), answer, &twins)
}
