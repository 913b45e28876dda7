// What the ids of rows name, and the rows in force.
ghost use Rattle.std.specs.Prelude.{◌≡◌, ◌≤◌, length, take};
ghost use Rattle.laws.specs.Ranges.{tab, overlay};
ghost use Rattle.rules.specs.Kinds as K;
ghost use Rattle.rules.specs.Layout as layout;
ghost use Rattle.rules.specs.Catalog.{catalog_in, row_from};
ghost use Rattle.rules.specs.Table.{in_force};
ghost use Rattle.written.specs.Shown.{entry_words, entries_by, row_named, named_in};

use catalog::{KeyedImage, is_commutative, op_at, row_count, row_place};
use dimension::ProductOp;
use table::op_word;

// The kinds that the ids of a row name.
#[derive(Clone, Copy)]
pub struct Named {
    pub left: Option<u16>,
    pub right: Option<u16>,
    pub result: Option<u16>,
}

pub(crate) const NONE_NAMED: Named = Named {
    left: None,
    right: None,
    result: None,
};

// The words that a row enters: the first `count` of them. A slice has no array to borrow from once `entries_at` is done, and an Option would still
// need the count, which is 4 or 8.
#[derive(Clone, Copy)]
struct Entries {
    words: [u32; 8],
    count: usize,
}

// What the ids of row i name, 32 bytes each.
#[tactic(auto, using(crate::proofs::InForce::row_named_law))]
fn row_named(keyed: KeyedImage, i: u16) -> Named
    ensures { result ≡ row_named keyed.entry.image.now i }
{
    let p = row_place(keyed.image, i);
    Named {
        left: keyed.find(p),
        right: keyed.find(p + 32),
        result: keyed.find(p + 64),
    }
}

// Writes what the ids of the rows name in front of `named`.
pub(crate) fn rows_named(keyed: KeyedImage, named: &mut [Named])
    requires { layout.row_count keyed.image.now ≤ length named.old }
    ensures { named.new ≡ overlay (tab (row_named keyed.entry.image.now) (layout.row_count keyed.entry.image.now)) named.old }
{
    for i in 0..row_count(keyed.image) {
        named[usize::from(i)] = row_named(keyed, i);
    }
}

// What a row of these kinds enters; where the turned pair counts too, it follows.
#[tactic(auto, unfolding(crate::specs::Shown::entry_words))]
fn entry(l: u16, op: ProductOp, r: u16, k: u16, turned: bool) -> Entries
    ensures words_value { take result.count result.words ≡ entry_words l (K.op_word op) r k turned }
    ensures count_bound { (result.count ≤ 8) × (length result.words ≡ 8) }
{
    let x = u32::from(l);
    let y = u32::from(r);
    let z = u32::from(k);
    let o = op_word(op);
    if turned {
        return Entries {
            words: [x, o, y, z, y, o, x, z],
            count: 8,
        };
    }
    Entries {
        words: [x, o, y, z, 0, 0, 0, 0],
        count: 4,
    }
}

// What the row at p enters, by what its ids name: nothing where one of them names nothing; a commutative row of two kinds also the turned pair.
#[tactic(auto, unfolding(crate::specs::Shown::entries_by))]
fn entries_at(image: &[u8], p: u32, named: Named) -> Entries
    ensures words_value { take result.count result.words ≡ entries_by (row_from image.now p) named }
    ensures count_bound { (result.count ≤ 8) × (length result.words ≡ 8) }
{
    if let (Some(l), Some(r), Some(k)) = (named.left, named.right, named.result) {
        let turned = is_commutative(image, p) & (l != r);
        return entry(l, op_at(image, p), r, k, turned);
    }
    Entries {
        words: [0; 8],
        count: 0,
    }
}

// Writes the rows in force of an image in front of `words`, in declared order, by what their ids name; how many words these are. They are written in
// place and counted: there is no heap, and memory is fixed. That the count is at most 1,600 is said where it is handed on, here and in `whole`: a type for
// such a count would be opened at each.
pub(crate) fn rows_words(image: &[u8], named: &[Named], words: &mut [u32]) -> usize
    requires image_bound { layout.row_count image.now ≤ 200 }
    requires named_len { length named.now ≡ 200 }
    requires named_value { named.now ≡ named_in image.now }
    requires words_len { length words.old ≡ 1600 }
    ensures words_after { words.new ≡ overlay (in_force (catalog_in image.now)) words.old }
    ensures value { result ≡ length (in_force (catalog_in image.now)) }
    ensures upper_bound { result ≤ 1600 }
{
    let mut used: usize = 0;
    for i in 0..row_count(image) {
        let e = entries_at(image, row_place(image, i), named[usize::from(i)]);
        words[used..used + e.count].copy_from_slice(&e.words[..e.count]);
        used += e.count;
    }
    used
}
