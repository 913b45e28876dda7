// The report: a kind's id, or the caller's own word for a number, as a part of what was lent. Nothing is copied.
#![tactic(auto)]

ghost use Rattle.std.specs.Prelude.{◌≡◌};
ghost use Rattle.rules.specs.Report as rule;
ghost use Rattle.formula.specs.Shown.{term_of};
ghost use Rattle.report.specs.Shown.{is_readable, id_length};

use catalog::{kind_count, kind_place};
use formula::Term;
use image::check_image;
use slices::part;

// Whether the image meets none of 1 to 4.
#[tactic(auto, using(crate::proofs::Parts::readable))]
fn is_readable(image: &[u8]) -> bool
    ensures { result ≡ is_readable image.now }
{
    check_image(image).is_ok()
}

// How many bytes of the id at p come before its padding. A `u32` is a `usize` by `as`, here and below: there is no `From`.
fn id_length(image: &[u8], p: u32) -> usize
    ensures { result ≡ id_length image.now p }
{
    part(image, p as usize, 32)
        .iter()
        .take_while(|b| **b != 0)
        .count()
}

// The id at p, its padding left off.
#[tactic(auto, using(crate::proofs::Parts::id_told))]
fn id_part(image: &[u8], p: u32) -> &[u8]
    ensures { result.now ≡ rule.id_part image.now p }
{
    part(image, p as usize, id_length(image, p))
}

// The id of kind k, its padding left off; empty where the image meets 1 to 4 or k is past the end.
#[tactic(auto, using(crate::proofs::Parts::kind_parts))]
pub fn kind_part(image: &[u8], k: u16) -> &[u8]
    ensures { result.now ≡ rule.kind_part image.now k }
{
    if !is_readable(image) {
        return part(image, 0, 0);
    }
    if k < kind_count(image) {
        return id_part(image, kind_place(k));
    }
    part(image, 0, 0)
}

#[tactic(auto, unfolding(rules::specs::Report::report))]
pub fn report<'a>(image: &'a [u8], word: &'a [u8], term: Term) -> &'a [u8]
    ensures { result.now ≡ rule.report image.now word.now (term_of term) }
{
    match term {
        Term::Number => word,
        Term::Kind(k) => kind_part(image, k),
    }
}
