// Where a report's part lies. An exported function can't hand out a part itself, so it tells which of the lent slices has it, its first byte there and
// its length.
ghost use Rattle.std.specs.Prelude.{◌≡◌};
ghost use Rattle.exports.specs.Part as P;

use catalog::kind_place;

// An empty part is told at 0: the record of its kind may be past the image's end. A `u32` is a `usize` by `as`: there is no `From`.
#[tactic(auto, using(laws::proofs::Cases::cases), unfolding(crate::specs::Part::kind_start))]
pub(crate) fn kind_start(k: u16, n: usize) -> usize
    ensures { result ≡ P.kind_start k n }
{
    if n == 0 {
        return 0;
    }
    kind_place(k) as usize
}
