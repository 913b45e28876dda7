// A rule's refusal.
ghost use Rattle.std.specs.Prelude.{◌≡◌};
ghost use Rattle.std.specs.declared.result.Result.TheVariants.{Err};
ghost use Rattle.error.specs.Shown.{fault};

use error::{Error, Fault};

// Refused at kind, row or byte k.
pub(crate) fn refused_at<T>(error: Error, k: u16) -> Result<T, Fault>
    ensures { result ≡ Err (fault k error) }
{
    Err(error.at(usize::from(k)))
}
