// An answer compared with a stored one: eight bytes (what it is, the refusal's number, the place or the kind, how many numbers and twins), then the
// numbers of four bytes and the twins of two. The numbers are the dimensions where the refusal returns them, and then its values.
ghost use Rattle.std.specs.Prelude.{◌≡◌, ◌+◌, ◌<◌, ◌≤◌, length};
ghost use Rattle.stored.specs.Answers as rule;

use crate::exponents::dimensions;
use dimension::Dimensions;
use error::{Error, Fault, Said, say};
use numbers::{byte_at, u16_at, u32_at};

// Where the twins stand.
#[tactic(auto, unfolding(crate::specs::Answers::twins_at))]
fn twins_at(s: &[u8]) -> usize
    ensures value { result ≡ rule.twins_at s.now }
    ensures upper_bound { result ≤ 262148 }
{
    8 + 4 * usize::from(u16_at(s, 4))
}

// The bytes of the answer that s begins with, unless it is a compilation's.
#[tactic(auto, unfolding(crate::specs::Answers::size_of))]
pub fn answer_size(s: &[u8]) -> usize
    ensures value { result ≡ rule.size_of s.now }
    ensures upper_bound { result ≤ 393218 }
{
    twins_at(s) + 2 * usize::from(u16_at(s, 6))
}

#[tactic(auto, unfolding(crate::specs::Answers::twin_as))]
fn is_twin(s: &[u8], twins: &[u16], i: usize) -> bool
    requires { (i < length twins.now) × (i ≤ 65535) }
    ensures { result ≡ rule.twin_as s.now twins.now i }
{
    u16_at(s, twins_at(s) + 2 * i) == twins[i]
}

// Not `==` of two slices: the stored twins are bytes, two for each. A loop, here and of values, since the ruleset `alls` speaks of it; `all` over a closure
// takes a law of its own, as in `replay`.
#[tactic(auto, using(crate::proofs::Compared::twin_differs, laws::proofs::All::alls), unfolding(crate::specs::Answers::twins_as))]
fn are_twins(s: &[u8], twins: &[u16]) -> bool
    ensures { result ≡ rule.twins_as s.now twins.now }
{
    let n = usize::from(u16_at(s, 6));
    if twins.len() < n {
        return false;
    }
    for i in 0..n {
        if !is_twin(s, twins, i) {
            return false;
        }
    }
    true
}

// The Rust can't tell every place; 65,535 is what the file then holds, not an answer of a function here.
#[tactic(auto, unfolding(crate::specs::Answers::place_as))]
fn is_place(stored: u16, place: usize) -> bool
    ensures { result ≡ rule.place_as stored place }
{
    (stored == 65535) | (usize::from(stored) == place)
}

#[tactic(auto, unfolding(crate::specs::Answers::value_as))]
fn is_value(s: &[u8], at: usize, said: Said, i: usize) -> bool
    requires { (at ≤ 104) × (i ≤ 65535) }
    ensures { result ≡ rule.value_as s.now at said i }
{
    // By `as`: there is no `From` of a `u32` for `usize`.
    u32_at(s, at + 4 * i) as usize == said.values.get(i).copied().unwrap_or(0)
}

// Not `==` of two slices: the stored values are bytes, four for each, and of those past the four of a refusal 0 is said.
#[tactic(auto, using(crate::proofs::Compared::value_differs, laws::proofs::All::alls), unfolding(crate::specs::Answers::values_as))]
fn are_values(s: &[u8], at: usize, said: Said) -> bool
    requires { (at ≤ 104) × (said.count ≤ 65535) }
    ensures { result ≡ rule.values_as s.now at said }
{
    for i in 0..said.count {
        if !is_value(s, at, said, i) {
            return false;
        }
    }
    true
}

// How many numbers stand before the values: those of the dimensions that are returned.
#[tactic(auto, unfolding(crate::specs::Answers::numbers_before))]
fn numbers_before(dims: Option<Dimensions>) -> usize
    ensures value { result ≡ rule.numbers_before dims }
    ensures upper_bound { result ≤ 24 }
{
    match dims {
        Some(_) => 24,
        None => 0,
    }
}

// By `equals`: its contract is the `D.equal` that the definition cites.
#[tactic(auto, unfolding(crate::specs::Answers::dimensions_as))]
fn are_dimensions(s: &[u8], dims: Option<Dimensions>) -> bool
    ensures { result ≡ rule.dimensions_as s.now dims }
{
    match dims {
        Some(d) => d.equals(dimensions(s, 8)),
        None => true,
    }
}

#[tactic(auto, unfolding(crate::specs::Answers::numbers_as))]
fn are_numbers(s: &[u8], said: Said) -> bool
    ensures { result ≡ rule.numbers_as s.now said }
{
    let before = numbers_before(said.dims);
    let count = usize::from(u16_at(s, 4));
    if count.checked_sub(before) != Some(said.count) {
        return false;
    }
    are_dimensions(s, said.dims) & are_values(s, 8 + 4 * before, said)
}

#[tactic(auto, unfolding(crate::specs::Answers::cause_as))]
fn is_cause(s: &[u8], said: Said, place: usize) -> bool
    ensures { result ≡ rule.cause_as s.now said place }
{
    // 0 to 3 are the bytes that the files begin an answer with (docs/VECTORS.md); each is compared at one place, so none has a type here.
    (byte_at(s, 0) == 2) & (u32::from(byte_at(s, 1)) == said.number) & is_place(u16_at(s, 2), place)
}

// A number or a kind: nothing else is stored with it. What it is goes by the file's own number, 0 or 1, each of which one caller names.
#[tactic(auto, unfolding(crate::specs::Answers::plain_as))]
fn is_plain(s: &[u8], what: u16, index: u16) -> bool
    ensures { result ≡ rule.plain_as s.now what index }
{
    (u16_at(s, 0) == what) & (u16_at(s, 2) == index) & (u32_at(s, 4) == 0)
}

// Whether s begins with the answer that is a number.
#[tactic(auto, unfolding(crate::specs::Answers::number_as))]
pub fn is_number(s: &[u8]) -> bool
    ensures { result ≡ rule.number_as s.now }
{
    is_plain(s, 0, 0)
}

// Whether it is this kind.
#[tactic(auto, unfolding(crate::specs::Answers::kind_as))]
pub fn is_kind(s: &[u8], k: u16) -> bool
    ensures { result ≡ rule.kind_as s.now k }
{
    is_plain(s, 1, k)
}

// Whether it is this refusal, with this twin list.
#[tactic(auto, unfolding(crate::specs::Answers::refusal_as))]
pub fn is_refusal(s: &[u8], fault: Fault, twins: &[u16]) -> bool
    ensures { result ≡ rule.refusal_as s.now fault twins.now }
{
    let said = say(fault.error);
    is_cause(s, said, fault.place) & are_numbers(s, said) & are_twins(s, twins)
}
