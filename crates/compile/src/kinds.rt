// A rule that is asked of every kind, one after the other.
ghost use Rattle.std.specs.Prelude.{◌≡◌, ◌<◌, ℕ};
ghost use Rattle.rules.specs.Compile.{Checked};
ghost use Rattle.compile.specs.Shown.{ruled, ruled_all};

use error::Fault;

// The check of each of n kinds, in kind order.
pub(crate) fn check_kinds<F: Fn(u16) -> Result<(), Fault>>(n: u16, check: F) -> Result<(), Fault>
    requires { (k : ℕ) → k < n → F.pre check k }
    ensures { (rule : ℕ → Checked) → ((k : ℕ) (r : _) → k < n → F.post check k r → r ≡ ruled k (rule k)) → result ≡ ruled_all rule n }
{
    for k in 0..n {
        check(k)?;
    }
    Ok(())
}
