// The line for each answer of a formula.
ghost use Rattle.std.specs.Prelude.{◌≡◌};
ghost use Rattle.error.specs.Shown.{said_of};
ghost use Rattle.printed.specs.Shown.{written, number_line, kind_line, refused_line, line_of};

use crate::text::Line;
use error::{Fault, say};
use formula::Term;
use report::kind_part;

fn number_line() -> Line
    ensures { result ≡ written number_line }
{
    Line::empty().add(b"number\n")
}

// The kind's index and id.
fn kind_line(image: &[u8], k: u16) -> Line
    ensures { result ≡ written (kind_line image.now k) }
{
    Line::empty()
        .add(b"kind ")
        .add_number(usize::from(k))
        .put(b' ')
        .add(kind_part(image, k))
        .put(b'\n')
}

// The refusal's number and place. A `u32` is a `usize` by `as`: there is no `From`.
fn refused_line(fault: Fault) -> Line
    ensures { result ≡ written (refused_line (said_of fault.error).number fault.place) }
{
    let number = say(fault.error).number as usize;
    Line::empty()
        .add(b"refused ")
        .add_number(number)
        .put(b' ')
        .add_number(fault.place)
        .put(b'\n')
}

// That a check passed, None, is told of no formula, and no line is printed for it.
#[tactic(auto, unfolding(crate::specs::Shown::line_of))]
pub fn line(image: &[u8], answer: Result<Option<Term>, Fault>) -> Line
    ensures { result ≡ written (line_of image.now answer) }
{
    match answer {
        Ok(Some(Term::Number)) => number_line(),
        Ok(Some(Term::Kind(k))) => kind_line(image, k),
        Ok(None) => Line::empty(),
        Err(fault) => refused_line(fault),
    }
}
