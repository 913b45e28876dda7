// How many requests of a stored file were answered as stored, and the file in a lent buffer.
ghost use Rattle.std.specs.Prelude.{◌≡◌, ◌≤◌, ◌-◌, ◌++◌, length, IfOk, Some, codes};
ghost use Rattle.std.specs.Fmt.{decimal};
ghost use Rattle.stored.specs.Files.{zeros};

use reading::read_full;
use std::{fmt, fs, io};

// Requests of a file, and how many of them agree.
#[derive(Clone, Copy)]
pub struct Tally {
    pub agreed: u32,
    pub requests: u32,
}

// How many requests of a part of a file agree, and its bytes.
#[derive(Clone, Copy)]
pub struct Part {
    pub agreed: u32,
    pub size: usize,
}

// What is told of a file that isn't there or isn't of its group: no stored file has no requests, so this is never what is expected. It isn't `None`,
// since each file has its line of two numbers, which is compared with the one that is wanted.
pub const UNREADABLE: Tally = Tally {
    agreed: 0,
    requests: 0,
};

impl fmt::Display for Tally {
    ghost output = { λ t. Some (decimal t.agreed ++ codes " of " ++ decimal t.requests) };

    fn fmt<W: fmt::Write>(&self, f: &mut fmt::Formatter<W>) -> fmt::Result {
        let agreed = self.agreed;
        let requests = self.requests;
        write!(f, "{agreed} of {requests}")
    }
}

// Room on the stack for the largest file that is read as a whole, and a byte more. A proof about more than this would run out of room itself.
pub const ROOM: usize = 655360;

// A buffer for a stored file. It comes from a function of its own, so that no proof looks at its elements.
#[tactic(auto, unfolding(crate::specs::Files::zeros))]
pub fn room() -> [u8; ROOM]
    ensures { result ≡ zeros 655360 }
{
    [0u8; ROOM]
}

// How many bytes of the file were put into the buffer: none if it can't be opened, and none if it fills the buffer, since it may go on. No bytes have
// no header, so a caller asks nothing more of 0 than of any other file. A length, as std's `read` answers it, so that the caller may cut it.
pub fn read<R: fs::Files>(files: &R, name: &str, buffer: &mut [u8]) -> io::Result<usize>
    ensures { IfOk result (λ n. n ≤ length buffer.new - 1) }
{
    match fs::open(files, name) {
        Ok(mut file) => {
            let n = read_full(&mut file, buffer)?;
            Ok(if n < buffer.len() { n } else { 0 })
        }
        Err(_) => Ok(0),
    }
}
