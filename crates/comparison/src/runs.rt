// An image compiled into a table of its own, and a formula called over that table with its own rows and a twin list of its own.
ghost use Rattle.std.specs.Prelude.{◌≡◌};
ghost use Rattle.comparison.specs.Shown.{called_over, run_of, both_of};

use call::call;
use compile::compile;
use error::Fault;
use formula::Term;
use table::own_rows;

// What a call over a compiled table answers, and what the twin list then holds.
#[derive(Clone, Copy)]
pub struct Called {
    pub answer: Result<Term, Fault>,
    pub twins: [u16; 240],
}

// Of each catalog its call, or why it does not compile.
#[derive(Clone, Copy)]
pub struct Both {
    pub small: Result<Called, Fault>,
    pub large: Result<Called, Fault>,
}

// A call over a compiled table.
#[tactic(auto, unfolding(crate::specs::Shown::called_over))]
fn call_over(table: &[u32], bytes: &[u8]) -> Called
    ensures { result ≡ called_over table.now bytes.now }
{
    let mut twins = [0; 240];
    let answer = call(table, own_rows(table), &mut twins, bytes);
    Called { answer, twins }
}

#[tactic(auto, unfolding(crate::specs::Shown::run_of, compile::specs::Shown::compiled))]
pub fn run(image: &[u8], bytes: &[u8]) -> Result<Called, Fault>
    ensures { result ≡ run_of image.now bytes.now }
{
    let mut table = [0; 9296];
    compile(image, &mut table)?;
    Ok(call_over(&table, bytes))
}

// The formula over the catalog of `small`, and over that of `large`: neither sees the other's table, rows or twin list.
#[tactic(auto, unfolding(crate::specs::Shown::both_of))]
pub fn run_both(small: &[u8], large: &[u8], bytes: &[u8]) -> Both
    ensures { result ≡ both_of small.now large.now bytes.now }
{
    let first = run(small, bytes);
    let second = run(large, bytes);
    Both {
        small: first,
        large: second,
    }
}
