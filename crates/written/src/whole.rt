// The table: its front, which is a head and the kinds, and the rows in force.
ghost use Rattle.std.specs.Prelude.{◌≡◌, [], ◌∷◌, ◌+◌, ◌*◌, ◌/◌, ◌≤◌, length, replicate};
ghost use Rattle.laws.specs.Ranges.{overlay};
ghost use Rattle.rules.specs.Layout as layout;
ghost use Rattle.rules.specs.Catalog.{catalog_in, id_at, link};
ghost use Rattle.rules.specs.Table.{index_word, in_force};
ghost use Rattle.written.specs.Shown.{front_in, front_after, fits_in, rows_in, rows_for, none_named, named_in, named_for};

use crate::kinds::kinds_words;
use crate::links::index_word;
use crate::rows::{NONE_NAMED, Named, rows_named, rows_words};
use catalog::{DIMENSIONLESS, KeyedImage, TIME, keys_of, kind_count, row_count};
use table::{Head, KIND, KINDS, ROW};

// The words of the rows in force, with zeros past them, and what the ids of the rows name.
#[derive(Clone, Copy)]
pub struct Written {
    pub rows: [u32; 1600],
    pub named: [Named; 200],
}

// The first four words; `used` is how many words the rows in force take. The rows' number goes by `as`: it is at most 400, so a `try_from` would have an
// error that no number gives.
fn head_words(keyed: KeyedImage, used: usize) -> Head
    requires { used ≤ 1600 }
    ensures { result ≡ layout.kind_count keyed.entry.image.now ∷ used / 4 ∷ index_word (link (catalog_in keyed.entry.image.now) (id_at keyed.entry.image.now 12)) ∷ index_word (link (catalog_in keyed.entry.image.now) (id_at keyed.entry.image.now 44)) ∷ [] }
{
    table::head_words(
        u32::from(kind_count(keyed.image)),
        (used / ROW) as u32,
        index_word(keyed.link(DIMENSIONLESS)),
        index_word(keyed.link(TIME)),
    )
}

// Writes the front over that of t: the head, zeros up to the kinds, the kinds.
fn front_words(keyed: KeyedImage, used: usize, t: &mut [u32])
    requires used_value { used ≡ length (in_force (catalog_in keyed.image.now)) }
    requires used_bound { used ≤ 1600 }
    requires image_in_bounds { 16 + 32 * layout.kind_count keyed.image.now ≤ length t.old }
    ensures { t.new ≡ overlay (front_in keyed.entry.image.now) t.old }
{
    let head = head_words(keyed, used);
    let mut first = [0u32; KINDS];
    first[..head.len()].copy_from_slice(&head);
    t[..KINDS].copy_from_slice(&first);
    kinds_words(keyed, &mut t[KINDS..]);
}

// Writes the parts of a catalog whose front has room in t. The two lists of `Written` go one by one, since each clause speaks of one.
fn write_parts(image: &[u8], rows: &mut [u32], named: &mut [Named], t: &mut [u32])
    requires image_bound { layout.kind_count image.now ≤ 240 }
    requires image_bound_2 { layout.row_count image.now ≤ 200 }
    requires rows_len { length rows.old ≡ 1600 }
    requires named_value { named.old ≡ replicate 200 none_named }
    requires image_in_bounds { 16 + 32 * layout.kind_count image.now ≤ length t.old }
    ensures rows_after { rows.new ≡ overlay (in_force (catalog_in image.now)) rows.old }
    ensures named_after { named.new ≡ named_in image.now }
    ensures t_after { t.new ≡ overlay (front_in image.now) t.old }
{
    let keys = keys_of(image).words;
    let keyed = KeyedImage { image, keys: &keys };
    rows_named(keyed, named);
    let used = rows_words(image, named, rows);
    front_words(keyed, used, t);
}

// Whether the counts are within their limits and the front has room in n words.
#[tactic(auto, unfolding(crate::specs::Shown::fits_in))]
fn fits(image: &[u8], n: usize) -> bool
    ensures { result ≡ fits_in image.now n }
{
    let kinds = kind_count(image);
    (kinds <= 240) & (row_count(image) <= 200) & (KINDS + KIND * usize::from(kinds) <= n)
}

// The words that a compilation writes, in two parts: the front over that of the lent words t, and the rows in force, with what their ids name. No
// rows and nothing named, and t as it was, where a count is over its limit or t is too short. The zeros stand for no rows, and not an Option: a caller
// asks for nothing that `check_lent` refuses, so that a None would be a case that never comes.
#[tactic(auto, unfolding(crate::specs::Shown::fits_in, crate::specs::Shown::rows_for, crate::specs::Shown::named_for, crate::specs::Shown::front_after, crate::specs::Shown::rows_in))]
pub fn table_words(image: &[u8], t: &mut [u32]) -> Written
    ensures rows_value { result.rows ≡ rows_for image.now (length t.old) }
    ensures named_value { result.named ≡ named_for image.now (length t.old) }
    ensures t_after { t.new ≡ front_after image.now t.old }
{
    let mut written = Written {
        rows: [0; 1600],
        named: [NONE_NAMED; 200],
    };
    if fits(image, t.len()) {
        write_parts(image, &mut written.rows, &mut written.named, t);
    }
    written
}
