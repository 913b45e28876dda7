// Where the parts of a table lie, and the words of a head and of a kind's marks in their order: docs/TABLE.md in code. The crates above have
// these numbers by their names.
ghost use Rattle.std.specs.Prelude.{◌≡◌, [], ◌∷◌};
ghost use Rattle.rules.specs.Kinds as K;

use dimension::ProductOp;

// Kind 0 begins here, and each kind takes so many words.
pub const KINDS: usize = 16;

pub const KIND: usize = 32;

// Of a kind's words, those past its exponents.
pub const FLAG: usize = 24;

pub const GRADE: usize = 25;

pub const ROLE: usize = 26;

pub const DIFFERENCE: usize = 27;

pub const TARGET: usize = 28;

pub const RATE: usize = 29;

// Row 0 begins here, and each row in force takes so many words.
pub const ROWS: usize = 7696;

pub const ROW: usize = 4;

pub type Head = [u32; 4];

pub type Marks = [u32; 8];

// How many kinds and rows there are, the dimensionless and the time kind: 65,535, the table's own word, where there is none.
pub fn head_words(kinds: u32, rows: u32, dimensionless: u16, time: u16) -> Head
    ensures { result ≡ kinds ∷ rows ∷ dimensionless ∷ time ∷ [] }
{
    [kinds, rows, u32::from(dimensionless), u32::from(time)]
}

// A kind's words past its exponents. These are the words themselves, so a link that isn't there is 65,535 and no option, and flag and role are the
// numbers that docs/TABLE.md gives them. They go one by one, in the order of the words: a struct of them would be these words under another name.
pub fn mark_words(
    flag: u32,
    grade: u32,
    role: u32,
    difference: u16,
    target: u16,
    rate: u16,
) -> Marks
    ensures { result ≡ flag ∷ grade ∷ role ∷ difference ∷ target ∷ rate ∷ 0 ∷ 0 ∷ [] }
{
    [
        flag,
        grade,
        role,
        u32::from(difference),
        u32::from(target),
        u32::from(rate),
        0,
        0,
    ]
}

// The word that an operation has in a row: a number, since a table is words. By a name of its own and no `From`, since its token's code is another number.
pub fn op_word(op: ProductOp) -> u32
    ensures { result ≡ K.op_word op }
{
    match op {
        ProductOp::Mul => 0,
        ProductOp::Div => 1,
        ProductOp::Dot => 2,
        ProductOp::Wedge => 3,
    }
}
