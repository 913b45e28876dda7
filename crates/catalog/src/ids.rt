// Ids, 32 bytes each, and the kind that an id names.
ghost use Rattle.std.specs.Prelude.{◌≡◌, ◌<◌, IfSome};
ghost use Rattle.rules.specs.Layout as layout;
ghost use Rattle.rules.specs.Catalog.{blank, same, id_at, catalog_in};
ghost use Rattle.catalog.specs.Shown.{byte_zero, bytes_alike};

use crate::records::kind_place;
use numbers::byte_at;
use slices::after;

// Whether byte i of the id at p is zero.
#[tactic(auto, unfolding(crate::specs::Shown::byte_zero))]
fn zero(image: &[u8], p: u32, i: usize) -> bool
    requires { i < 32 }
    ensures { result ≡ byte_zero image.now p i }
{
    byte_at(image, p as usize + i) == 0
}

// The id at p, if all its bytes are there.
pub(crate) fn id_of(image: &[u8], p: u32) -> Option<&[u8; 32]>
    ensures { IfSome result (λ id. id.now ≡ id_at image.now p) }
{
    after(image, p as usize).first_chunk::<32>()
}

// Whether an id is all zero. No byte ends the loop, so that many are looked at at once: with the plain loops alone, of `blank_at`, `same_at` and
// `key_at`, kindcheck over the catalog large takes 2.82 million instructions in place of 2.07. With `==` of arrays here and in `is_same` (proved) its
// ids are found in 606 thousand in place of 568. With `for byte in id` (tried) the proof didn't close: `everys` speaks of an index.
#[tactic(auto, using(laws::proofs::All::everys, crate::proofs::Alike::blank_whole), unfolding(crate::specs::Shown::byte_zero))]
fn is_blank(id: &[u8; 32]) -> bool
    ensures { result ≡ blank id.now }
{
    let mut blank = true;
    for i in 0..32 {
        blank = blank & (id[i] == 0);
    }
    blank
}

// Whether the id at p is all zero.
#[tactic(auto, using(laws::proofs::All::alls, crate::proofs::Alike::blank_id, crate::proofs::Alike::not_blank))]
pub fn blank_at(image: &[u8], p: u32) -> bool
    ensures { result ≡ blank (id_at image.now p) }
{
    if let Some(id) = id_of(image, p) {
        return is_blank(id);
    }
    for i in 0..32 {
        if !zero(image, p, i) {
            return false;
        }
    }
    true
}

// Whether byte i of the ids at p and q is the same.
#[tactic(auto, unfolding(crate::specs::Shown::bytes_alike))]
fn alike(image: &[u8], p: u32, q: u32, i: usize) -> bool
    requires { i < 32 }
    ensures { result ≡ bytes_alike image.now p image.now q i }
{
    byte_at(image, p as usize + i) == byte_at(image, q as usize + i)
}

// Whether two ids are the same. No byte ends the loop, so that many are compared at once; `is_blank` has what that saves, and why i is counted.
#[tactic(auto, using(laws::proofs::All::everys, crate::proofs::Alike::same_whole), unfolding(crate::specs::Shown::bytes_alike))]
fn is_same(a: &[u8; 32], b: &[u8; 32]) -> bool
    ensures { result ≡ same a.now b.now }
{
    let mut same = true;
    for i in 0..32 {
        same = same & (a[i] == b[i]);
    }
    same
}

// Whether the ids at p and q are the same.
#[tactic(auto, using(laws::proofs::All::alls, crate::proofs::Alike::same_ids, crate::proofs::Alike::not_same))]
pub fn same_at(image: &[u8], p: u32, q: u32) -> bool
    ensures { result ≡ same (id_at image.now p) (id_at image.now q) }
{
    if let (Some(a), Some(b)) = (id_of(image, p), id_of(image, q)) {
        return is_same(a, b);
    }
    for i in 0..32 {
        if !alike(image, p, q, i) {
            return false;
        }
    }
    true
}

// Whether kind k has the id at p.
#[tactic(auto, using(crate::proofs::Found::kind_in_law), unfolding(rules::specs::Catalog::kind_from))]
pub(crate) fn names(image: &[u8], k: u16, p: u32) -> bool
    requires { k < layout.kind_count image.now }
    ensures { result ≡ same ((catalog_in image.now).kind k).id (id_at image.now p) }
{
    same_at(image, kind_place(k), p)
}
