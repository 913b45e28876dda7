// The whole of kindcheck, from the bytes it reads to the line it prints.
ghost use Rattle.std.specs.Prelude.{◌≡◌};
ghost use Rattle.rules.specs.Report as rule;
ghost use Rattle.formula.specs.Shown.{termed};
ghost use Rattle.printed.specs.Shown.{written, of_formula};

use crate::input::{formula_part, image_part};
use crate::lines::line;
use crate::text::Line;
use compile::compile;
use error::Fault;
use formula::{Term, run};
use table::own_rows;

// The formula's answer over the image, which is compiled into a table of the program's own.
#[tactic(auto, using(crate::proofs::Compiled::stops))]
fn checked(image: &[u8], bytes: &[u8]) -> Result<Term, Fault>
    ensures { result ≡ termed (rule.checked image.now bytes.now) }
{
    let mut table = [0u32; 9296];
    compile(image, &mut table)?;
    run(&table, own_rows(&table), bytes)
}

// A formula's answer is never that a check passed, which `line` answers for too.
#[tactic(auto, using(laws::proofs::Cases::cases), unfolding(crate::specs::Shown::of_formula))]
fn of_formula(answer: Result<Term, Fault>) -> Result<Option<Term>, Fault>
    ensures { result ≡ of_formula answer }
{
    match answer {
        Ok(term) => Ok(Some(term)),
        Err(fault) => Err(fault),
    }
}

#[tactic(auto, using(crate::proofs::Compiled::prints))]
pub fn kindcheck(input: &[u8]) -> Line
    ensures { result ≡ written (rule.kindcheck input.now) }
{
    let image = image_part(input);
    line(image, of_formula(checked(image, formula_part(input))))
}
