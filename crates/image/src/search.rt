// The search for a byte that is not zero.
ghost use Rattle.std.specs.Prelude.{◌≡◌, ◌+◌, ◌-◌, ◌*◌, ◌<◌, ◌≤◌, length};
ghost use Rattle.rules.specs.Layout.{filled};
ghost use Rattle.laws.specs.Options.{is_some};
ghost use Rattle.laws.specs.Ranges.{first_from};

use numbers::byte_at;

#[tactic(auto, unfolding(rules::specs::Layout::filled))]
pub(crate) fn filled(s: &[u8], i: usize) -> bool
    ensures { result ≡ filled s.now i }
{
    byte_at(s, i) != 0
}

pub(crate) fn filled_before(s: &[u8], i: usize) -> bool
    ensures { result ≡ filled s.now (i - 1) }
{
    filled(s, i.saturating_sub(1))
}

// Whether one of the n bytes from p on, all of them there, is not zero. No byte ends the loop, so that many are looked at at once: with the
// plain loop alone, here and in `id_fault`, kindcheck over the catalog large takes 3.67 million instructions in place of 2.07.
// i stands for a place only, but with `for x in &s[p..p + n]` (tried) the proof didn't close: `anys` speaks of an index.
#[tactic(auto, using(laws::proofs::FirstFrom::anys), unfolding(rules::specs::Layout::filled))]
fn any_filled(s: &[u8], p: usize, n: usize) -> bool
    requires { p + n ≤ length s.now }
    ensures { result ≡ is_some (first_from (filled s.now) p n) }
{
    let mut any = false;
    for i in 0..n {
        any = any | (s[p + i] != 0);
    }
    any
}

// The first of the n bytes from p on that is not zero.
#[tactic(auto, using(crate::proofs::Finds::finds))]
pub(crate) fn first_filled(s: &[u8], p: usize, n: usize) -> Option<usize>
    requires { p + n < 1000000 }
    ensures { result ≡ first_from (filled s.now) p n }
{
    if p + n <= s.len() && !any_filled(s, p, n) {
        return None;
    }
    for i in 0..n {
        if filled(s, p + i) {
            return Some(p + i);
        }
    }
    None
}
