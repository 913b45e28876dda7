// The run over a formula's tokens.
ghost use Rattle.std.specs.Prelude.{◌≡◌, []};
ghost use Rattle.rules.specs.Call.{ending, formula_in};
ghost use Rattle.rules.specs.Formula as rule;
ghost use Rattle.rules.specs.Table.{kinds_of, rows_of};
ghost use Rattle.rules.specs.Token.{tokens_in};
ghost use Rattle.formula.specs.Shown.{termed, stack_of};

use crate::stack::{empty, step};
use crate::terms::Term;
use error::{Error, Fault};
use tokens::{malformed, token_at, token_count};

// After the last token: one term remains, or the formula is malformed at its end, which is then the place.
#[tactic(auto, using(crate::proofs::Ends::ends))]
fn last(stack: [Term; 32], depth: usize, place: usize) -> Result<Term, Fault>
    ensures { result ≡ termed (ending (rule.last place (stack_of stack depth))) }
{
    if depth == 1 {
        return Ok(stack[0]);
    }
    Err(Error::Malformed(place).at(place))
}

// Token by token, up to the first refusal. What a later request wants of a run beside its answer would be carried here as the depth is: a count of
// lookups that each step adds to, and a mark that a comparison sets.
#[tactic(auto, using(crate::proofs::Ends::turns))]
fn walked(t: &[u32], rows: &[u32], bytes: &[u8]) -> Result<Term, Fault>
    ensures { result ≡ termed (ending (rule.walk (rule.terms (kinds_of t.now) (rows_of rows.now)) (tokens_in bytes.now) 0 [])) }
{
    let n = token_count(bytes);
    let mut stack = empty();
    let mut depth: usize = 0;
    for place in 0..n {
        let top = stack[depth.saturating_sub(1)];
        let left = stack[depth.saturating_sub(2)];
        let token = token_at(bytes, place);
        let put = step(t, rows, left, top, depth, place, token).map_err(|e| e.at(place))?;
        stack[put.at] = put.term;
        depth = put.at + 1;
    }
    last(stack, depth, n)
}

// A formula's answer: the kind or number that remains, or the first refusal with its token. 50 is looked for over the whole list first, so that a
// malformed formula is malformed whatever its kinds are.
#[tactic(auto, using(crate::proofs::Ends::ends))]
pub fn run(t: &[u32], rows: &[u32], bytes: &[u8]) -> Result<Term, Fault>
    ensures { result ≡ termed (formula_in (kinds_of t.now) (rows_of rows.now) bytes.now) }
{
    match malformed(bytes) {
        Some(p) => Err(Error::Malformed(p).at(p)),
        None => walked(t, rows, bytes),
    }
}
