// Bytes of a reader in a lent buffer: what the programs read of standard input and of stored files.
#![tactic(auto)]

ghost use Rattle.std.specs.Prelude.{◌≤◌, length, IfOk};

use std::io::{self, ErrorKind, Read};

// As many bytes as the reader has and the buffer holds, and how many these are. A read that was interrupted is made again.
pub fn read_full<R: Read>(reader: &mut R, buffer: &mut [u8]) -> io::Result<usize>
    ensures { IfOk result (λ n. n ≤ length buffer.new) }
{
    let mut at = 0;
    // Until the buffer is full or nothing is left: how many reads that takes isn't known before. A `while` would need a measure of what a reader has left,
    // which there is none of; `read_to_end` asks for memory, and `read_exact` refuses a short input.
    for _ in 0..u64::MAX {
        if at == buffer.len() {
            break;
        }
        match reader.read(&mut buffer[at..]) {
            Ok(0) => break,
            Ok(n) => at += n,
            Err(e) => {
                if e.kind() != ErrorKind::Interrupted {
                    return Err(e);
                }
            }
        }
    }
    Ok(at)
}
