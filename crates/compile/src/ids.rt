// 10 and 11: every kind has an id of its own. That k is a kind of the image is said by a `requires` in both
// functions: a type of such numbers would hold the image too, and k is a plain number everywhere else.
ghost use Rattle.std.specs.Prelude.{◌≡◌, ◌<◌};
ghost use Rattle.rules.specs.Layout as layout;
ghost use Rattle.rules.specs.Catalog.{catalog_in};
ghost use Rattle.rules.specs.Compile as rule;
ghost use Rattle.compile.specs.Shown.{ruled, repeated};

use crate::answers::refused_at;
use catalog::{KeyedImage, blank_at, kind_place};
use error::{Error, Fault};

// Whether an earlier kind has the id of kind k.
#[tactic(auto, using(crate::proofs::OwnIds::own))]
fn is_repeated(keyed: KeyedImage, k: u16) -> bool
    requires { k < layout.kind_count keyed.image.now }
    ensures { result ≡ repeated (catalog_in keyed.entry.image.now) k }
{
    keyed.find(kind_place(k)).is_some_and(|j| j < k)
}

// The id of kind k: empty, then repeated.
#[tactic(auto, using(crate::proofs::OwnIds::own))]
pub(crate) fn check_id(keyed: KeyedImage, k: u16) -> Result<(), Fault>
    requires { k < layout.kind_count keyed.image.now }
    ensures { result ≡ ruled k (rule.id_rule (catalog_in keyed.entry.image.now) k) }
{
    if blank_at(keyed.image, kind_place(k)) {
        return refused_at(Error::EmptyId(k), k);
    }
    if is_repeated(keyed, k) {
        return refused_at(Error::Duplicate(k), k);
    }
    Ok(())
}
