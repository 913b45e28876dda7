// Bytes put one after the other into the 64 of a line.
ghost use Rattle.std.specs.Prelude.{◌≡◌, []};
ghost use Rattle.rules.specs.Report.{digits};
ghost use Rattle.printed.specs.Shown.{written, with_byte, added};

// The first `length` of 64 bytes; those after are 0. An array with its length beside it, since no memory is asked for. Over the kit's vector of fixed
// room (`arrayvec`) it was written, proved and as fast, but by a rule of the project nothing new is to be trusted, as that crate's statements would be.
#[derive(Clone, Copy)]
pub struct Line {
    pub bytes: [u8; 64],
    pub length: usize,
}

// No `Display` stands for these: an id is any bytes, not text, and `write!` may fail.
impl Line {
    pub(crate) fn empty() -> Line
        ensures { result ≡ written [] }
    {
        Line {
            bytes: [0; 64],
            length: 0,
        }
    }

    // What does not fit is left off; no line has more than 64 bytes.
    #[tactic(auto, unfolding(crate::specs::Shown::with_byte))]
    fn push(&mut self, x: u8)
        ensures { self.new ≡ with_byte self.old x }
    {
        if self.length < 64 {
            self.bytes[self.length] = x;
            self.length += 1;
        }
    }

    pub(crate) fn put(mut self, x: u8) -> Line
        ensures { result ≡ with_byte self x }
    {
        self.push(x);
        self
    }

    #[tactic(auto, using(crate::proofs::Added::adds))]
    pub(crate) fn add(mut self, s: &[u8]) -> Line
        ensures { result ≡ added self s.now }
    {
        for x in s {
            self.push(*x);
        }
        self
    }

    // The decimal digits of n, found from the last to the first: 20 are enough for any n. By `as`: a `try_from` would have an error that no digit gives.
    pub(crate) fn add_number(self, n: usize) -> Line
        ensures { result ≡ added self (digits n) }
    {
        let mut text = [0u8; 20];
        let mut i: usize = 20;
        let mut rest = n;
        // No `for`: the digits tell only at the end how many they are.
        while 10 <= rest {
            i -= 1;
            text[i] = 48 + (rest % 10) as u8;
            rest = rest / 10;
        }
        i -= 1;
        text[i] = 48 + rest as u8;
        self.add(&text[i..20])
    }
}
