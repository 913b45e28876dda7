// What the table says of kind k. Past the count no word of a kind is read, so there is an answer for every k. Words and kind go side by side: the words
// are lent and every k is answered, so a struct of both would be made at each call and hold nothing of either.
#![tactic(auto, using(crate::proofs::Fields::fields))]

ghost use Rattle.std.specs.Prelude.{◌≡◌, ◌<◌};
ghost use Rattle.laws.specs.Options.{found, is_some};
ghost use Rattle.dimension.specs.Dimension as D;
ghost use Rattle.rules.specs.Kinds as K;
ghost use Rattle.rules.specs.Table as T;
ghost use Rattle.table.specs.Shown.{field, link};

use crate::places::{DIFFERENCE, FLAG, GRADE, KIND, KINDS, RATE, TARGET};
use crate::words::{dims_from, index_at, word};
use dimension::Dimensions;

// At most 240, whatever the word says, so that it fits 16 bits: a `try_from` would have an error that no word gives.
pub fn kind_count(t: &[u32]) -> u16
    ensures { result ≡ (T.kinds_of t.now).count }
{
    word(t, 0).min(240) as u16
}

// Word f of kind k, or 0 past the count.
fn field(t: &[u32], k: u16, f: usize) -> u32
    requires { f < 32 }
    ensures { result ≡ field t.now k f }
{
    if k < kind_count(t) {
        return word(t, KINDS + KIND * usize::from(k) + f);
    }
    0
}

// The kind that word f of kind k names, or none past the count. It asks the count itself: what `field` answers there, 0, would name kind 0.
fn link(t: &[u32], k: u16, f: usize) -> Option<u16>
    requires { f < 32 }
    ensures { result ≡ link t.now k f }
{
    if k < kind_count(t) {
        return index_at(t, KINDS + KIND * usize::from(k) + f);
    }
    None
}

// Whether the kind's dimensions are given. Asked apart from the dimensions, since a search asks it and compares their words: it makes no dimensions.
pub fn is_resolved(t: &[u32], k: u16) -> bool
    ensures { result ≡ is_some ((T.kinds_of t.now).dims k) }
{
    field(t, k, FLAG) == 1
}

// Dimension one for an unresolved kind. The place goes by `as`: the test before says that k is below 240, so a `try_from` would never err.
pub fn dims_of(t: &[u32], k: u16) -> Dimensions
    ensures { result ≡ found ((T.kinds_of t.now).dims k) (λ d. d) D.one }
{
    if is_resolved(t, k) {
        return dims_from(t, (KINDS + KIND * usize::from(k)) as u32);
    }
    Dimensions::one()
}

pub fn grade_of(t: &[u32], k: u16) -> u32
    ensures { result ≡ (T.kinds_of t.now).grade k }
{
    field(t, k, GRADE)
}

#[tactic(auto, unfolding(rules::specs::Table::kinds_of, crate::specs::Shown::link))]
pub fn difference_of(t: &[u32], k: u16) -> Option<u16>
    ensures { result ≡ (T.kinds_of t.now).difference k }
{
    link(t, k, DIFFERENCE)
}

// The kind that k is the rate of.
#[tactic(auto, unfolding(rules::specs::Table::kinds_of, crate::specs::Shown::link))]
pub fn target_of(t: &[u32], k: u16) -> Option<u16>
    ensures { result ≡ (T.kinds_of t.now).rate_of k }
{
    link(t, k, TARGET)
}

// The kind that is the rate of k.
#[tactic(auto, unfolding(rules::specs::Table::kinds_of, crate::specs::Shown::link))]
pub fn rate_of(t: &[u32], k: u16) -> Option<u16>
    ensures { result ≡ (T.kinds_of t.now).rate k }
{
    link(t, k, RATE)
}

// A kind with a difference.
pub fn is_point(t: &[u32], k: u16) -> bool
    ensures { result ≡ K.point (T.kinds_of t.now) k }
{
    difference_of(t, k).is_some()
}

#[tactic(auto, unfolding(rules::specs::Table::kinds_of))]
pub fn dimensionless(t: &[u32]) -> Option<u16>
    ensures { result ≡ (T.kinds_of t.now).dimensionless }
{
    index_at(t, 2)
}

#[tactic(auto, unfolding(rules::specs::Table::kinds_of))]
pub fn time(t: &[u32]) -> Option<u16>
    ensures { result ≡ (T.kinds_of t.now).time }
{
    index_at(t, 3)
}

// The time kind's difference.
pub fn duration(t: &[u32]) -> Option<u16>
    ensures { result ≡ K.duration (T.kinds_of t.now) }
{
    let k = time(t)?;
    difference_of(t, k)
}
