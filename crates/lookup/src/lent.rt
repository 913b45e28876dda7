// What every call over lent words asks of them first.
ghost use Rattle.std.specs.Prelude.{◌≡◌};
ghost use Rattle.lookup.specs.Shown.{tested, lent};

use error::Error;
use valid::{are_rows, is_table};

// The entries of a twin list.
const TWINS: usize = 240;

// 5 for a short table and for a short twin list, then 40 for words that are no table, or rows that are none over it. The `check_lent` of `image`
// is no twin: it asks an image's bytes. Table, rows and twins go one by one, here and in the calls above, as the C interface lends them; of the three
// the twins alone are lent to be written.
#[tactic(auto, using(crate::proofs::Checked::checks))]
pub fn check_lent(table: &[u32], rows: &[u32], twins: &[u16]) -> Result<(), Error>
    ensures { result ≡ tested (lent table.now rows.now twins.now) }
{
    if table.len() < 9296 {
        return Err(Error::Short(table.len()));
    }
    if twins.len() < TWINS {
        return Err(Error::Short(twins.len()));
    }
    if !is_table(table) {
        return Err(Error::NoTable);
    }
    if !are_rows(table, rows) {
        return Err(Error::NoTable);
    }
    Ok(())
}
