// The program details: an image and then a formula on standard input, as kindcheck reads them, and the whole of what is answered on standard output. The
// first line has the 32 words of the compilation's answer. Where the image compiles, a second line has those of the formula's answer, and a third the
// twins that it lists. bindings/README.md says what the words mean.
#![tactic(auto)]

ghost use Rattle.std.specs.Prelude.{◌≡◌};
ghost use Rattle.details.specs.Listed.{lists_twins, twin_count};

use exports::{kind_compile, kind_formula};
use printed::{ROOM, formula_part, image_part};
use reading::read_full;
use slices::front;
use std::io;
use table::own_rows;

// The i-th number of a line.
fn print_number(rt: &HostRuntime, i: usize, n: u64) -> io::Result<()> {
    if 0 < i {
        print!(rt; " ")?;
    }
    print!(rt; "{n}")
}

// The numbers, a space between each two, and the line's end.
fn print_numbers<T: Copy + Into<u64>>(rt: &HostRuntime, numbers: &[T]) -> io::Result<()> {
    for (i, n) in numbers.iter().enumerate() {
        print_number(rt, i, (*n).into())?;
    }
    println!(rt;)
}

// Whether an answer is a refusal that lists twins, 44 or 48. These are read back out of words: the calls hand out nothing else, and so this program sees
// what one in another language does.
#[tactic(auto, using(laws::proofs::Cases::cases), unfolding(crate::specs::Listed::lists_twins))]
fn lists_twins(what: u32, number: u32) -> bool
    ensures { result ≡ lists_twins what number }
{
    what == 2 && (number == 44 || number == 48)
}

// How many twins it lists. A `u32` is a `usize` by `as`: there is no `From`.
#[tactic(auto, using(laws::proofs::Cases::cases), unfolding(crate::specs::Listed::twin_count))]
fn twin_count(words: [u32; 32]) -> usize
    ensures { result ≡ twin_count words }
{
    if lists_twins(words[0], words[1]) {
        return words[3] as usize;
    }
    0
}

fn tell_formula(rt: &HostRuntime, table: [u32; 9296], formula: &[u8]) -> io::Result<()> {
    let mut twins = [0u16; 240];
    let mut answer = [0u32; 32];
    kind_formula(&table, own_rows(&table), &mut twins, formula, &mut answer);
    print_numbers(rt, &answer)?;
    print_numbers(rt, front(&twins, twin_count(answer)))
}

// 3 says that the image compiles. It is read back out of a word as the refusals are.
fn tell(rt: &HostRuntime, input: &[u8]) -> io::Result<()> {
    let mut table = [0u32; 9296];
    let mut answer = [0u32; 32];
    kind_compile(image_part(input), &mut table, &mut answer);
    print_numbers(rt, &answer)?;
    if answer[0] == 3 {
        return tell_formula(rt, table, formula_part(input));
    }
    Ok(())
}

fn main(rt: HostRuntime) -> io::Result<()> {
    let mut input = [0u8; ROOM];
    let n = read_full(&mut rt.stdin(), &mut input)?;
    tell(&rt, &input[..n])
}
