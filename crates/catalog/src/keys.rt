// Keys of ids. Ids that differ mostly have different keys, so that most of them are told apart by one comparison; all kinds' keys are made once.
ghost use Rattle.std.specs.Prelude.{◌≡◌, ◌+◌, ◌<◌, ◌≤◌, length};
ghost use Rattle.std.specs.declared.option.Option.TheVariants.{None};
ghost use Rattle.laws.specs.Options.{is_some};
ghost use Rattle.laws.specs.Ranges.{first, first_from};
ghost use Rattle.rules.specs.Layout as layout;
ghost use Rattle.catalog.specs.Keys.{key_part, key_at, kind_key, key_count, keys_in, key_fits, named_by, find_by, link_by};

use crate::ids::{blank_at, id_of, names};
use crate::records::{kind_count, kind_place};
use numbers::{u16_at, u16_of};

// The keys of the kinds, zeros past them: an array of fixed size, since there is no heap.
#[derive(Clone, Copy)]
pub struct Keys {
    pub words: [u32; 240],
}

// What 16-bit number i of the id at p adds to its key: by its place, so that ids of the same numbers in another order differ. i goes by `as` here and in
// `part_of`: it is below 16, so a `try_from` would have an error that no i gives.
#[tactic(auto, unfolding(crate::specs::Keys::key_part))]
fn key_part(image: &[u8], p: u32, i: usize) -> u32
    requires { i < 16 }
    ensures value { result ≡ key_part image.now p i }
    ensures upper_bound { result ≤ 1048560 }
{
    (i as u32 + 1) * u32::from(u16_at(image, p as usize + 2 * i))
}

// The same of an id that is there; what it saves is said at `is_blank`.
#[tactic(auto, unfolding(crate::specs::Keys::key_part, rules::specs::Bytes::le2))]
fn part_of(id: &[u8; 32], i: usize) -> u32
    requires { i < 16 }
    ensures value { result ≡ key_part id.now 0 i }
    ensures upper_bound { result ≤ 1048560 }
{
    (i as u32 + 1) * u32::from(u16_of(id[2 * i], id[2 * i + 1]))
}

#[tactic(auto, using(laws::proofs::Sum::sums), unfolding(crate::specs::Keys::key_at))]
fn key_of(id: &[u8; 32]) -> u32
    ensures { result ≡ key_at id.now 0 }
{
    let mut key: u32 = 0;
    for i in 0..16 {
        key += part_of(id, i);
    }
    key
}

// The key of the id at p.
#[tactic(auto, using(laws::proofs::Sum::sums, crate::proofs::Keyed::key_there), unfolding(crate::specs::Keys::key_at))]
pub fn key_at(image: &[u8], p: u32) -> u32
    ensures { result ≡ key_at image.now p }
{
    if let Some(id) = id_of(image, p) {
        return key_of(id);
    }
    let mut key: u32 = 0;
    for i in 0..16 {
        key += key_part(image, p, i);
    }
    key
}

// The key of kind k.
#[tactic(auto, unfolding(crate::specs::Keys::kind_key))]
fn kind_key(image: &[u8], k: u16) -> u32
    ensures { result ≡ kind_key image.now k }
{
    key_at(image, kind_place(k))
}

// How many kinds have their key listed.
#[tactic(auto, unfolding(crate::specs::Keys::key_count))]
fn key_count(image: &[u8]) -> u16
    ensures value { result ≡ key_count image.now }
    ensures upper_bound { result ≤ 240 }
{
    kind_count(image).min(240)
}

// The keys of the first 240 kinds.
#[tactic(auto, using(laws::proofs::Tab::tab_none, laws::proofs::Tab::tab_next, laws::proofs::Tab::tab_end), unfolding(crate::specs::Keys::keys_in))]
pub fn keys_of(image: &[u8]) -> Keys
    ensures words_value { result.words ≡ keys_in image.now }
    ensures words_len { length result.words ≡ 240 }
{
    let n = key_count(image);
    let mut words = [0u32; 240];
    for k in 0..n {
        words[usize::from(k)] = kind_key(image, k);
    }
    Keys { words }
}

// Whether kind k has this key, by the list; past its end it may have any.
#[tactic(auto, unfolding(crate::specs::Keys::key_fits))]
fn fits(keys: &[u32], key: u32, k: u16) -> bool
    ensures { result ≡ key_fits keys.now key k }
{
    keys.get(usize::from(k)).is_none_or(|own| *own == key)
}

// Whether kind k has this key and the id at p.
#[tactic(auto, unfolding(crate::specs::Keys::named_by))]
fn named_by(image: &[u8], keys: &[u32], p: u32, key: u32, k: u16) -> bool
    requires { k < layout.kind_count image.now }
    ensures { result ≡ named_by image.now keys.now p key k }
{
    fits(keys, key, k) && names(image, k, p)
}

// Whether one of the sixteen keys from place `from` on, all of them there, is this one. They are asked sixteen at a time, so that several are compared at
// once: with the loop of `find_by` alone kindcheck over the catalog large takes 3.00 million instructions in place of 2.07.
fn any_of_sixteen(keys: &[u32], from: usize, key: u32) -> bool
    requires { from + 16 ≤ length keys.now }
    ensures { result ≡ is_some (first_from (key_fits keys.now key) from 16) }
{
    keys[from..from + 16].contains(&key)
}

// How many of the n kinds, sixteen at a time, are passed over: none of them has this key. By places, since `first` speaks of places: chunks would be turned
// back to them.
fn passed_over(keys: &[u32], key: u32, n: u16) -> u16
    ensures { (result ≤ n) × (first (key_fits keys.now key) result ≡ None) }
{
    for block in 0..n / 16 {
        let k = 16 * block;
        let from = usize::from(k);
        if keys.len() < from + 16 || any_of_sixteen(keys, from, key) {
            return k;
        }
    }
    16 * (n / 16)
}

// The first kind of the id at p, among those whose key in the list is that of the id. It answers for every list, of any length, so it is handed image and
// keys one by one; an image with its own keys is a `KeyedImage`.
#[tactic(auto, using(laws::proofs::First::scan, crate::proofs::Keyed::over_named, laws::proofs::First::first_here, crate::proofs::Keyed::by_here), unfolding(crate::specs::Keys::find_by))]
pub fn find_by(image: &[u8], keys: &[u32], p: u32) -> Option<u16>
    ensures { result ≡ find_by image.now keys.now p }
{
    let key = key_at(image, p);
    let n = kind_count(image);
    for k in passed_over(keys, key, n)..n {
        if named_by(image, keys, p, key, k) {
            return Some(k);
        }
    }
    None
}

// The kind that the id at p names, if it is declared, among those whose key in the list is that of the id.
#[tactic(auto, unfolding(crate::specs::Keys::link_by))]
pub fn link_by(image: &[u8], keys: &[u32], p: u32) -> Option<u16>
    ensures { result ≡ link_by image.now keys.now p }
{
    if blank_at(image, p) {
        return None;
    }
    find_by(image, keys, p)
}
