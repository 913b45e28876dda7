// The 32 words of a kind: exponents and marks.
ghost use Rattle.std.specs.Prelude.{◌≡◌, cond};
ghost use Rattle.laws.specs.Options.{is_some};
ghost use Rattle.rules.specs.Catalog.{kind_from};
ghost use Rattle.written.specs.Shown.{role_by, marks_by, kind_by};

use crate::links::{Links, index_word};
use catalog::{dims_at, grade_at, is_given};
use table::{FLAG, Marks, words_of};

// 1 for a point, which has a difference; 2 for a difference, which a kind names as one; 0 for others. A number, since it is a word of the table as it is
// handed out.
#[tactic(auto, unfolding(crate::specs::Shown::role_by))]
fn role(difference: Option<u16>, named: Option<u16>) -> u32
    ensures { result ≡ role_by difference named }
{
    if difference.is_some() {
        return 1;
    }
    if named.is_some() {
        return 2;
    }
    0
}

// 1 where the kind at p declares dimensions, 0 where they are unresolved.
fn flag(image: &[u8], p: u32) -> u32
    ensures { result ≡ cond (is_some (kind_from image.now p).dims) 1 0 }
{
    u32::from(is_given(image, p))
}

// The last eight words of the kind at p, by its links.
#[tactic(auto, unfolding(crate::specs::Shown::marks_by))]
fn mark_words(image: &[u8], p: u32, links: Links) -> Marks
    ensures { result ≡ marks_by (kind_from image.now p) links }
{
    table::mark_words(
        flag(image, p),
        u32::from(grade_at(image, p)),
        role(links.difference, links.named),
        index_word(links.difference),
        index_word(links.target),
        index_word(links.rate),
    )
}

// The words of the kind at p, by its links.
pub(crate) fn kind_words(image: &[u8], p: u32, links: Links) -> [u32; 32]
    ensures { result ≡ kind_by (kind_from image.now p) links }
{
    let exponents = words_of(dims_at(image, p));
    let marks = mark_words(image, p, links);
    let mut w = [0u32; 32];
    w[..FLAG].copy_from_slice(&exponents);
    w[FLAG..].copy_from_slice(&marks);
    w
}
