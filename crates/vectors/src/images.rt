// The group `images`: an image with one byte changed, the sum of its block set right or not, cut to a length, and what it is refused for. A section
// is an image and its requests; a request is 20 bytes: the length, the changed byte's place and value, whether the sum is set right, and then the
// refusal's number (0 for none), place and value. Between `u32` and `usize` there is no `From`, and a `try_from` would ask what can't fail: hence `as`.
ghost use Rattle.std.specs.Prelude.{◌≡◌, ◌≤◌};
ghost use Rattle.vectors.specs.ImageRequests.{refusal_as, told_as};

use crate::walk;
use error::{Fault, say};
use numbers::{byte_at, u16_at, u32_at};
use slices::{after, front};
use std::io;
use stored::{LONGEST, Part, Tally};

const GROUP: u32 = 5;

// The bytes of a block: 508, and their sum in four more.
const BLOCK: usize = 512;

const REQUEST: usize = 20;

// What a request tells of the answer: a refusal's number as the file has it, 0 for none, its place and its first value. No Option:
// `told_as` speaks of the file's own number, so a law would be needed that no refusal has the number 0.
#[derive(Clone, Copy)]
struct Told {
    number: u32,
    place: u32,
    value: u32,
}

fn refuses(fault: Fault, told: Told) -> bool
    ensures { result ≡ refusal_as fault told.number told.place told.value }
{
    let said = say(fault.error);
    (said.number == told.number)
        & (fault.place == told.place as usize)
        & (said.values[0] == told.value as usize)
}

// Whether an answer is this refusal, or that there is none.
#[tactic(auto, unfolding(crate::specs::ImageRequests::told_as))]
fn is(answer: Result<(), Fault>, told: Told) -> bool
    ensures { result ≡ told_as answer told.number told.place told.value }
{
    match answer {
        Ok(()) => told.number == 0,
        Err(fault) => refuses(fault, told),
    }
}

// The sum of a block: byte i of it is added i + 1 times. It isn't the sum of `image`, which is what is judged here.
fn sum(block: &[u8]) -> u32 {
    let mut total: u32 = 0;
    for i in 0..508 {
        total += (i as u32 + 1) * u32::from(byte_at(block, i));
    }
    total
}

// Sets a block's sum right.
fn reseal(block: &mut [u8]) {
    let sum = sum(block);
    if let Some(word) = block.get_mut(508..BLOCK) {
        word.copy_from_slice(&sum.to_le_bytes());
    }
}

// Changes the byte that a request says, and sets the sum right where this is asked.
fn change(block: &mut [u8], request: &[u8]) {
    if let Some(byte) = block.get_mut(u32_at(request, 4) as usize % BLOCK) {
        *byte = byte_at(request, 8);
    }
    if byte_at(request, 9) == 1 {
        reseal(block);
    }
}

fn answered(image: &[u8], length: u32) -> Result<(), Fault> {
    image::check_image(front(image, length as usize))
}

// Whether the library answers the first request as it is stored; the image is as it was afterwards.
fn agrees(request: &[u8], image: &mut [u8]) -> bool {
    let start = u32_at(request, 4) as usize / BLOCK * BLOCK;
    let mut kept = [0u8; BLOCK];
    if let Some(block) = image.get_mut(start..start + BLOCK) {
        kept.copy_from_slice(block);
        change(block, request);
    }
    let answer = answered(image, u32_at(request, 0));
    if let Some(block) = image.get_mut(start..start + BLOCK) {
        block.copy_from_slice(&kept);
    }
    let told = Told {
        number: u32::from(byte_at(request, 10)),
        place: u32_at(request, 12),
        value: u32_at(request, 16),
    };
    is(answer, told)
}

// How many of n requests of an image agree.
fn agreed_in(requests: &[u8], n: u16, image: &mut [u8]) -> u32
    ensures { result ≤ n }
{
    // No chain that counts: its closure would hold the image, which each request writes.
    let mut count: u32 = 0;
    for i in 0..n {
        if agrees(after(requests, REQUEST * usize::from(i)), image) {
            count += 1;
        }
    }
    count
}

// The section that s begins with.
fn section(s: &[u8], image: &mut [u8]) -> Part
    ensures agreed_bound { result.agreed ≤ 65535 }
    ensures size_bound { result.size ≤ 4296278007 }
{
    let requests = u16_at(s, 8);
    let start = stored::unpack_section(s, image);
    Part {
        agreed: agreed_in(after(s, start), requests, image),
        size: start + REQUEST * usize::from(requests),
    }
}

fn counted(s: &[u8]) -> Tally {
    let mut image = [0u8; LONGEST];
    let agreed = walk::agreed(
        after(s, 16),
        u32_at(s, 8),
        |rest| Some(section(rest, &mut image)),
    );
    Tally {
        agreed: agreed.unwrap_or(0),
        requests: u32_at(s, 12),
    }
}

pub(crate) fn replayed(rt: &HostRuntime) -> io::Result<Tally> {
    walk::replayed(rt, "images.bin", GROUP, counted)
}
