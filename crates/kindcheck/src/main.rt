// The program kindcheck: an image and then a formula on standard input, one line on standard output.
#![tactic(auto)]

use printed::{Line, ROOM};
use reading::read_full;
use slices::front;
use std::io::{self, Write};

fn tell(rt: &HostRuntime, line: Line) -> io::Result<()> {
    io::writer(rt).write_all(front(&line.bytes, line.length))
}

fn main(rt: HostRuntime) -> io::Result<()> {
    let mut input = [0u8; ROOM];
    let n = read_full(&mut rt.stdin(), &mut input)?;
    tell(&rt, printed::kindcheck(&input[..n]))
}
