// The words of all kinds.
ghost use Rattle.std.specs.Prelude.{◌≡◌, ◌*◌, ◌≤◌, length, replicate};
ghost use Rattle.laws.specs.Ranges.{tab, overlay};
ghost use Rattle.rules.specs.Layout as layout;
ghost use Rattle.rules.specs.Catalog.{catalog_in};
ghost use Rattle.written.specs.Shown.{flat, kind_in, kinds_word, no_links};

use crate::links::{Links, NO_LINKS, list_links};
use crate::marks::kind_words;
use catalog::{KeyedImage, kind_count, kind_place};
use table::KIND;

// Writes the words of the first n kinds in front of t, by the list of their links.
fn kinds_by(image: &[u8], n: u16, links: &[Links], t: &mut [u32])
    requires n_bound { n ≤ 240 }
    requires links_len { n ≤ length links.now }
    requires n_in_bounds { 32 * n ≤ length t.old }
    ensures { t.new ≡ overlay (flat (kind_in image.now links.now) n) t.old }
{
    for k in 0..n {
        let i = usize::from(k);
        let w = kind_words(image, kind_place(k), links[i]);
        t[KIND * i..KIND * i + KIND].copy_from_slice(&w);
    }
}

// Writes them by a list that is made in these links.
fn kinds_in(keyed: KeyedImage, links: &mut [Links], t: &mut [u32])
    requires links_value { links.old ≡ replicate (length links.old) no_links }
    requires image_bound { layout.kind_count keyed.image.now ≤ length links.old }
    requires image_in_bounds { 32 * layout.kind_count keyed.image.now ≤ length t.old }
    ensures { t.new ≡ overlay (tab (kinds_word (catalog_in keyed.entry.image.now)) (32 * layout.kind_count keyed.entry.image.now)) t.old }
{
    list_links(keyed, links);
    kinds_by(keyed.image, kind_count(keyed.image), links, t);
}

// Writes the words of the kinds that an image declares, by their keys. The list of up to 60 kinds is a small one, so that a
// compilation of so few makes a quarter of it.
pub(crate) fn kinds_words(keyed: KeyedImage, t: &mut [u32])
    requires { 32 * layout.kind_count keyed.image.now ≤ length t.old }
    ensures { t.new ≡ overlay (tab (kinds_word (catalog_in keyed.entry.image.now)) (32 * layout.kind_count keyed.entry.image.now)) t.old }
{
    if kind_count(keyed.image) <= 60 {
        let mut few = [NO_LINKS; 60];
        return kinds_in(keyed, &mut few, t);
    }
    let mut all = [NO_LINKS; 240];
    kinds_in(keyed, &mut all, t)
}
