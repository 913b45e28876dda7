// An image with the keys of its kinds, by which ids are found as they are without.
ghost use Rattle.std.specs.Prelude.{◌≡◌, ◌≤◌};
ghost use Rattle.rules.specs.Layout as layout;
ghost use Rattle.rules.specs.Catalog.{id_at, catalog_in, find, link};
ghost use Rattle.catalog.specs.Keys.{keys_in};

use crate::keys::{find_by, link_by};

// An image of at most 240 kinds, and their keys. That their number is in the type lets the compiler leave out the test for one past the end.
#[derive(Clone, Copy)]
pub struct KeyedImage<'a> {
    pub image: &'a [u8],
    pub keys: &'a [u32; 240],
    ghost own: { keys.now ≡ keys_in image.now },
    ghost few: { layout.kind_count image.now ≤ 240 },
}

impl<'a> KeyedImage<'a> {
    // The first kind of the id at p. As `link`, it is put into its callers: called, it would read what `self` holds from memory.
    #[tactic(auto, using(crate::proofs::Keyed::own_find))]
    #[inline(always)]
    pub fn find(self, p: u32) -> Option<u16>
        ensures { result ≡ find (catalog_in self.entry.image.now) (id_at self.entry.image.now p) }
    {
        let keys = self.keys;
        find_by(self.image, keys, p)
    }

    // The kind that the id at p names, if it is declared.
    #[tactic(auto, using(crate::proofs::Keyed::own_link))]
    #[inline(always)]
    pub fn link(self, p: u32) -> Option<u16>
        ensures { result ≡ link (catalog_in self.entry.image.now) (id_at self.entry.image.now p) }
    {
        let keys = self.keys;
        link_by(self.image, keys, p)
    }
}
