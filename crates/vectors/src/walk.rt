// A stored file whose parts stand one after another, each with requests of its own, and how many of them agree.
ghost use Rattle.std.specs.Prelude.{◌≤◌, ◌*◌, ℕ, IfSome};
ghost use Rattle.std.specs.Option.{ForSome};

use slices::front;
use std::io;
use stored::{Part, Tally, UNREADABLE};

// How many requests of n parts agree; none if a part is not one or isn't whole, or if they don't end with the bytes. `replay` has a walk of its
// own, and its own reading of a file: as a public function of `stored` for both programs it was written and proved. But by a rule of the project a
// public contract is an equation, except where a file is read, and of what a closure counts it could promise a bound alone.
pub(crate) fn agreed<F: FnMut(&[u8]) -> Option<Part>>(s: &[u8], n: u32, mut part: F) -> Option<u32>
    requires { F.IsAlwaysCallable part }
    ensures { (m : ℕ) → ((p : F) (x : _) (r : _) (q : F) → F.step p x r q → ForSome r (λ t. t.agreed ≤ m)) → IfSome result (λ c. c ≤ m * n) }
{
    let mut rest = s;
    let mut count: u32 = 0;
    for _ in 0..n {
        let found = part(rest)?;
        count = count.saturating_add(found.agreed);
        rest = rest.get(found.size..)?;
    }
    rest.is_empty().then_some(count)
}

// The tally of a file, by what counts the bytes of one that is there and of this group.
pub(crate) fn replayed<F: FnOnce(&[u8]) -> Tally>(
    rt: &HostRuntime,
    name: &str,
    group: u32,
    counted: F,
) -> io::Result<Tally>
    requires { F.IsAlwaysCallable counted }
{
    let mut buffer = stored::room();
    let n = stored::read(rt, name, &mut buffer)?;
    let file = front(&buffer, n);
    Ok(if stored::is_group(file, group) {
        counted(file)
    } else {
        UNREADABLE
    })
}
