// The 32 words of an answer.
ghost use Rattle.std.specs.Prelude.{◌≡◌, [], ◌∷◌, map};
ghost use Rattle.formula.specs.Shown.{term_of};
ghost use Rattle.exports.specs.Sheet as S;
ghost use Rattle.exports.specs.Sheet.{padded};
ghost use Rattle.exports.specs.Shown.{fault_words};

use error::{Fault, say};
use formula::Term;
use table::words_of;

// A number as a word; the greatest word stands for every number over 32 bits.
#[tactic(auto, using(laws::proofs::Cases::cases), unfolding(crate::specs::Sheet::capped))]
fn capped(n: usize) -> u32
    ensures { result ≡ S.capped n }
{
    u32::try_from(n).unwrap_or(u32::MAX)
}

// The first three words, and zeros. The first says what the answer is, 0 to 3: a word of the C interface, not a type of the calls here.
fn head(what: u32, which: u32, place: u32) -> [u32; 32]
    ensures { result ≡ padded (what ∷ which ∷ place ∷ []) }
{
    let mut words = [0; 32];
    words[0] = what;
    words[1] = which;
    words[2] = place;
    words
}

fn value_words(values: [usize; 4]) -> [u32; 4]
    ensures { result ≡ map S.capped values }
{
    values.map(capped)
}

// A refusal: its number and place, and then what it returns, the exponents of dimensions where there are any and four values.
pub(crate) fn fault_words(fault: Fault) -> [u32; 32]
    ensures { result ≡ fault_words fault }
{
    let said = say(fault.error);
    let values = value_words(said.values);
    let mut words = head(2, said.number, capped(fault.place));
    match said.dims {
        None => words[3..7].copy_from_slice(&values),
        Some(d) => {
            words[3..27].copy_from_slice(&words_of(d));
            words[27..31].copy_from_slice(&values);
        }
    }
    words
}

pub(crate) fn compiled_words(_done: ()) -> [u32; 32]
    ensures { result ≡ padded (3 ∷ []) }
{
    head(3, 0, 0)
}

pub(crate) fn kind_words(k: u16) -> [u32; 32]
    ensures { result ≡ padded (S.kind_words k) }
{
    head(1, u32::from(k), 0)
}

pub(crate) fn term_words(term: Term) -> [u32; 32]
    ensures { result ≡ padded (S.term_words (term_of term)) }
{
    match term {
        Term::Number => head(0, 0, 0),
        Term::Kind(k) => kind_words(k),
    }
}
