// A file that is read section by section: an image or what kindcheck reads, and one answer. A `u32` of the file is a `usize` by `as`, and a `usize`
// a `u64`: there is no `From`.
ghost use Rattle.std.specs.Prelude.{◌≡◌, ◌≤◌, ◌+◌, ℕ, length, IfOk};
ghost use Rattle.replay.specs.Pieces.{agreed_on};

use numbers::{u16_at, u32_at};
use slices::{after, front};
use std::fs::File;
use std::os::unix::fs::FileExt;
use std::{fs, io};
use stored::{Tally, UNREADABLE};

// No stored file is longer.
const LIMIT: u64 = 16777216;

// No section is longer, and no input that it holds.
const LARGE: usize = 65536;

// Whether the answer that bytes begin with, or the section, agrees, and how many bytes it has. It isn't a `Part`, which counts: here is
// one request, which agrees or doesn't.
#[derive(Clone, Copy)]
pub(crate) struct Compared {
    pub(crate) agrees: bool,
    pub(crate) size: usize,
}

// What the file holds from a place on, as much as there is room for.
fn read_at(file: &File, at: u64, buffer: &mut [u8]) -> io::Result<usize>
    ensures { IfOk result (λ n. n ≤ length buffer.new) }
{
    file.read_at(buffer, at)
}

// The section that s begins with. It has one request. Here and below the closure is lent from function to function, each of which asks that it can be
// called: a struct around it would ask the same.
fn section<F: Fn(&[u8], &[u8]) -> Compared>(s: &[u8], compare: &F, input: &mut [u8]) -> Compared
    requires { F.IsAlwaysCallable compare.now }
    ensures { (m : ℕ) → ((x y r : _) → F.post compare.now x y r → r.size ≤ m) → result.size ≤ 4294967307 + m }
{
    let start = stored::unpack_section(s, input);
    let found = compare(after(s, start), front(input, u32_at(s, 0) as usize));
    Compared {
        agrees: found.agrees & (u16_at(s, 8) == 1),
        size: found.size.saturating_add(start),
    }
}

// How many of n sections agree; none if one isn't whole or they don't end with the file. It isn't the walk of `sections`: these files are longer than
// what is held, so each section is read from its place, and a reading may fail: `?` is for that, so where there is none is said with `return`.
fn agreed<F: Fn(&[u8], &[u8]) -> Compared>(
    file: &File,
    compare: &F,
    n: u32,
    buffer: &mut [u8],
    input: &mut [u8],
) -> io::Result<Option<u32>>
    requires { F.IsAlwaysCallable compare.now }
{
    let mut at: u64 = 16;
    // No chain that counts: the place moves on beside the count, and `?` ends the loop.
    let mut count: u32 = 0;
    for _ in 0..n {
        if LIMIT < at {
            return Ok(None);
        }
        let held = read_at(file, at, buffer)?;
        let found = section(&buffer[..held], compare, input);
        if held < found.size {
            return Ok(None);
        }
        if found.agrees {
            count += 1;
        }
        at += found.size as u64;
    }
    let past = read_at(file, at, buffer)?;
    Ok((past == 0).then_some(count))
}

// What is read and where it goes is handed on one by one: a struct of the file, the closure and the buffer would be made for this one call.
fn counted<F: Fn(&[u8], &[u8]) -> Compared>(
    file: &File,
    group: u32,
    compare: &F,
    buffer: &mut [u8],
) -> io::Result<Tally>
    requires { F.IsAlwaysCallable compare.now }
{
    let held = read_at(file, 0, buffer)?;
    let head = &buffer[..held];
    if !stored::is_group(head, group) {
        return Ok(UNREADABLE);
    }
    let sections = u32_at(head, 8);
    let requests = u32_at(head, 12);
    let mut input = [0u8; LARGE];
    let agreed = agreed(file, compare, sections, buffer, &mut input)?.unwrap_or(0);
    Ok(Tally { agreed, requests })
}

// The closure compares the answer that its first bytes begin with to what is answered for the others, the input, as the group says.
pub(crate) fn replayed<F: Fn(&[u8], &[u8]) -> Compared>(
    rt: &HostRuntime,
    name: &str,
    group: u32,
    compare: F,
) -> io::Result<Tally>
    requires callable { F.IsAlwaysCallable compare }
    requires compares { (s input r : _) → F.post compare s input r → r.agrees ≡ agreed_on group s.now input.now }
{
    match fs::open(rt, name) {
        Ok(file) => {
            let mut buffer = [0u8; LARGE];
            counted(&file, group, &compare, &mut buffer)
        }
        Err(_) => Ok(UNREADABLE),
    }
}
