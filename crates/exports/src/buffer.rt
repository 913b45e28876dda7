// What a call hands out, in a buffer that its caller lends.
ghost use Rattle.std.specs.Prelude.{◌≡◌};
ghost use Rattle.exports.specs.Shown.{has_room_for, laid};

// Writes the words over the front of the buffer where that has room.
#[tactic(auto, using(laws::proofs::Cases::cases), unfolding(crate::specs::Shown::has_room_for, crate::specs::Shown::laid))]
pub(crate) fn write<T: Copy>(words: &[T], out: &mut [T]) -> bool
    ensures value { result ≡ has_room_for words.now out.old }
    ensures out_after { out.new ≡ laid words.now out.old }
{
    let n = words.len();
    if out.len() < n {
        return false;
    }
    out[..n].copy_from_slice(words);
    true
}
