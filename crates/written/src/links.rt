// What the ids of kinds name, as a list.
ghost use Rattle.std.specs.Prelude.{◌≡◌, ◌≤◌, length, replicate};
ghost use Rattle.laws.specs.Ranges.{tab};
ghost use Rattle.rules.specs.Layout as layout;
ghost use Rattle.rules.specs.Table.{index_word};
ghost use Rattle.written.specs.Shown.{links_by, no_links};

use catalog::{KeyedImage, kind_count, kind_place};

// What is listed of a kind: its difference, the kind that it is the rate of, the first kind that names it as a difference, and the first that is its rate.
#[derive(Clone, Copy)]
pub(crate) struct Links {
    pub(crate) difference: Option<u16>,
    pub(crate) target: Option<u16>,
    pub(crate) named: Option<u16>,
    pub(crate) rate: Option<u16>,
}

pub(crate) const NO_LINKS: Links = Links {
    difference: None,
    target: None,
    named: None,
    rate: None,
};

// The word of what an id names. 65,535 says none in a table's words, which are handed out as numbers.
pub(crate) fn index_word(link: Option<u16>) -> u16
    ensures { result ≡ index_word link }
{
    link.unwrap_or(65535)
}

// Lists the links of all kinds, with nothing past the last. A kind that an id names may come before or after.
pub(crate) fn list_links(keyed: KeyedImage, links: &mut [Links])
    requires links_value { links.old ≡ replicate (length links.old) no_links }
    requires image_bound { layout.kind_count keyed.image.now ≤ length links.old }
    ensures { links.new ≡ tab (links_by keyed.entry.image.now (layout.kind_count keyed.entry.image.now)) (length links.old) }
{
    for k in 0..kind_count(keyed.image) {
        let p = kind_place(k);
        let difference = keyed.link(p + 32);
        let target = keyed.link(p + 64);
        let i = usize::from(k);
        links[i].difference = difference;
        links[i].target = target;
        if let Some(d) = difference {
            let j = usize::from(d);
            links[j].named = links[j].named.or(Some(k));
        }
        if let Some(g) = target {
            let j = usize::from(g);
            links[j].rate = links[j].rate.or(Some(k));
        }
    }
}
