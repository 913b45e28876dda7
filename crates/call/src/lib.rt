// One call of a formula over lent words and bytes: 5, 40, then the run; 44 and 48 list their twins.
#![tactic(auto)]

ghost use Rattle.std.specs.Prelude.{◌≡◌};
ghost use Rattle.rules.specs.Refusal.{twins_after};
ghost use Rattle.rules.specs.Call as rule;
ghost use Rattle.formula.specs.Shown.{termed};

use error::Fault;
use formula::{Term, run};
use lookup::{check_lent, list_twins};

// 5, 40 at 0, and then what the formula comes to.
#[tactic(auto, using(crate::proofs::Ordered::ordered))]
fn answered(table: &[u32], rows: &[u32], twins: &[u16], bytes: &[u8]) -> Result<Term, Fault>
    ensures { result ≡ termed (rule.call table.now rows.now twins.now bytes.now) }
{
    check_lent(table, rows, twins).map_err(|e| e.at(0))?;
    run(table, rows, bytes)
}

#[tactic(auto, using(crate::proofs::Ordered::ordered))]
pub fn call(table: &[u32], rows: &[u32], twins: &mut [u16], bytes: &[u8]) -> Result<Term, Fault>
    ensures value { result ≡ termed (rule.call table.now rows.now twins.old bytes.now) }
    ensures twins_after { twins.new ≡ twins_after (rule.call table.now rows.now twins.old bytes.now) twins.old }
{
    let answer = answered(table, rows, twins, bytes);
    list_twins(table, answer, twins);
    answer
}
