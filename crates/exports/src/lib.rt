// The calls for programs in other languages, which the crate `exports_c` hands on to them. Each call writes its answer into a buffer of
// 32 words and hands back whether that had room: a shorter one stays as it was, and the call is made all the same. bindings/README.md has the words. The
// report's answer is three words, which tell where the part that it prints lies.
#![tactic(auto)]

mod buffer;
mod parts;
mod words;

ghost use Rattle.std.specs.Prelude.{◌≡◌, true, length};
ghost use Rattle.rules.specs.Refusal.{twins_after};
ghost use Rattle.rules.specs.Image.{compile_image, table_after};
ghost use Rattle.rules.specs.Lookup as lone;
ghost use Rattle.rules.specs.Call as rule;
ghost use Rattle.rules.specs.Report as prints;
ghost use Rattle.exports.specs.Sheet.{sheet_of, compiled_words, kind_words, term_words, has_room, written};
ghost use Rattle.exports.specs.Part.{term_by, part_words, has_part_room, part_written, pointed};

use buffer::write;
use call::call;
use compile::compile;
use lookup::{Exponent, combine, power};
use parts::kind_start;
use report::kind_part;
use words::{compiled_words, fault_words, kind_words, term_words};

// A catalog image compiled into a lent table.
#[tactic(auto, using(crate::proofs::Sheets::room_told))]
pub fn kind_compile(image: &[u8], table: &mut [u32], out: &mut [u32]) -> bool
    ensures value { result ≡ has_room out.old }
    ensures out_after { out.new ≡ written (sheet_of compiled_words (compile_image image.now (length table.old))) out.old }
    ensures table_after { table.new ≡ table_after image.now table.old }
{
    let answer = compile(image, table);
    write(&answer.map_or_else(fault_words, compiled_words), out)
}

// Two kinds combined by the code of a token, 2 to 7.
#[tactic(auto, using(crate::proofs::Sheets::room_told))]
pub fn kind_combine(
    table: &[u32],
    rows: &[u32],
    twins: &mut [u16],
    code: u8,
    left: u16,
    right: u16,
    out: &mut [u32],
) -> bool
    ensures value { result ≡ has_room out.old }
    ensures out_after { out.new ≡ written (sheet_of kind_words (lone.combine table.now rows.now twins.old code left right)) out.old }
    ensures twins_after { twins.new ≡ twins_after (lone.combine table.now rows.now twins.old code left right) twins.old }
{
    let answer = combine(table, rows, twins, code, left, right);
    write(&answer.map_or_else(fault_words, kind_words), out)
}

// A kind to the exponent num / den.
#[tactic(auto, using(crate::proofs::Sheets::room_told))]
pub fn kind_power(
    table: &[u32],
    twins: &mut [u16],
    base: u16,
    num: i32,
    den: u32,
    out: &mut [u32],
) -> bool
    ensures value { result ≡ has_room out.old }
    ensures out_after { out.new ≡ written (sheet_of kind_words (lone.power table.now twins.old base (lone.exact num den))) out.old }
    ensures twins_after { twins.new ≡ twins_after (lone.power table.now twins.old base (lone.exact num den)) twins.old }
{
    let answer = power(table, twins, base, Exponent::Exact(num, den));
    write(&answer.map_or_else(fault_words, kind_words), out)
}

// A kind to an inexact exponent.
#[tactic(auto, using(crate::proofs::Sheets::room_told))]
pub fn kind_power_inexact(table: &[u32], twins: &mut [u16], base: u16, out: &mut [u32]) -> bool
    ensures value { result ≡ has_room out.old }
    ensures out_after { out.new ≡ written (sheet_of kind_words (lone.power table.now twins.old base lone.inexact)) out.old }
    ensures twins_after { twins.new ≡ twins_after (lone.power table.now twins.old base lone.inexact) twins.old }
{
    let answer = power(table, twins, base, Exponent::Inexact);
    write(&answer.map_or_else(fault_words, kind_words), out)
}

// A formula's tokens, 12 bytes each, run over a table and rows.
#[tactic(auto, using(crate::proofs::Sheets::room_told))]
pub fn kind_formula(
    table: &[u32],
    rows: &[u32],
    twins: &mut [u16],
    bytes: &[u8],
    out: &mut [u32],
) -> bool
    ensures value { result ≡ has_room out.old }
    ensures out_after { out.new ≡ written (sheet_of term_words (rule.call table.now rows.now twins.old bytes.now)) out.old }
    ensures twins_after { twins.new ≡ twins_after (rule.call table.now rows.now twins.old bytes.now) twins.old }
{
    let answer = call(table, rows, twins, bytes);
    write(&answer.map_or_else(fault_words, term_words), out)
}

// Which part of what is lent the report prints: of the image for a kind, of the word for a number. `kinded` and `kind` are no `Option`, and an answer's
// first word is a number: the C interface has neither.
pub fn kind_report(image: &[u8], word: &[u8], kinded: bool, kind: u16, part: &mut [usize]) -> bool
    ensures value { result ≡ has_part_room part.old }
    ensures part_after { part.new ≡ part_written (part_words image.now word.now (term_by kinded kind)) part.old }
    ensures part_after_2 { result ≡ true → pointed image.now word.now part.new ≡ prints.report image.now word.now (term_by kinded kind) }
{
    if kinded {
        let n = kind_part(image, kind).len();
        return write(&[1, kind_start(kind, n), n], part);
    }
    write(&[0, 0, word.len()], part)
}
