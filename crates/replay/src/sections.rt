// A stored file's sections: an image, and requests over what it is compiled to. A `u32` of the file is a `usize` by `as`: there is no `From`.
ghost use Rattle.std.specs.Prelude.{◌≡◌, ◌≤◌, ◌*◌};
ghost use Rattle.replay.specs.Requests as R;

use crate::requests::{self, Requests};
use numbers::{u16_at, u32_at};
use slices::{after, front};
use std::io;
use stored::{LONGEST, Part, Tally, UNREADABLE};

// The first n requests.
#[tactic(auto, using(laws::proofs::Picked::picks, crate::proofs::Asked::next_place, crate::proofs::Asked::agreed_here, crate::proofs::Asked::first_place), unfolding(crate::specs::Requests::agreed_of))]
fn replay(s: &[u8], requests: Requests, n: u16, table: &[u32]) -> Part
    ensures agreed_value { result.agreed ≡ R.agreed_of requests s.now table.now n }
    ensures size_value { result.size ≡ R.place_of requests s.now n }
    ensures upper_bound { (result.agreed ≤ n) × (result.size ≤ 1179642 * n) }
{
    let mut at: usize = 0;
    // No chain that counts: the place moves on beside the count.
    let mut count: u32 = 0;
    for _ in 0..n {
        let rest = after(s, at);
        if requests::agrees(rest, requests, table) {
            count += 1;
        }
        at += requests::size(rest, requests);
    }
    Part {
        agreed: count,
        size: at,
    }
}

// The section that s begins with.
fn section(s: &[u8], requests: Requests, image: &mut [u8]) -> Part
    ensures agreed_bound { result.agreed ≤ 65535 }
    ensures size_bound { result.size ≤ 90000000000 }
{
    let start = stored::unpack_section(s, image);
    let mut table = [0u32; 9296];
    // Each stored image compiles; of one that did not, the requests would be asked of zeros.
    let _ = compile::compile(front(image, u32_at(s, 0) as usize), &mut table);
    let found = replay(after(s, start), requests, u16_at(s, 8), &table);
    Part {
        agreed: found.agreed,
        size: start + found.size,
    }
}

// How many requests of n sections agree; none if the sections don't end with the file. It isn't the walk of `pieces`: these files are held whole, so
// no reading fails, and a section has many requests. `vectors` has a walk of its own: as a public function of `stored` for both programs it was written
// and proved. But by a rule of the project a public contract is an equation, except where a file is read, and of what a closure counts it could promise a
// bound alone.
fn agreed(s: &[u8], requests: Requests, n: u32, image: &mut [u8]) -> Option<u32> {
    let mut rest = s;
    let mut count: u32 = 0;
    for _ in 0..n {
        let found = section(rest, requests, image);
        count = count.saturating_add(found.agreed);
        rest = rest.get(found.size..)?;
    }
    rest.is_empty().then_some(count)
}

// This and `replayed` are alike in `vectors`: they are what is around the walk, and would promise no more than it.
fn counted(s: &[u8], requests: Requests) -> Tally {
    if !stored::is_group(s, requests::group_of(requests)) {
        return UNREADABLE;
    }
    let mut image = [0u8; LONGEST];
    Tally {
        agreed: agreed(after(s, 16), requests, u32_at(s, 8), &mut image).unwrap_or(0),
        requests: u32_at(s, 12),
    }
}

pub(crate) fn replayed(rt: &HostRuntime, name: &str, requests: Requests) -> io::Result<Tally> {
    let mut buffer = stored::room();
    let n = stored::read(rt, name, &mut buffer)?;
    Ok(counted(front(&buffer, n), requests))
}
