// The same calls as in the crate `exports`, as a static library for programs in C and Rust: bindings/ has the header and the package. They stand twice
// since a crate is a library or a static library, and C's types have no Option, Result or enum.
#![tactic(auto)]

ghost use Rattle.std.specs.Prelude.{◌≡◌, true, length};
ghost use Rattle.rules.specs.Refusal.{twins_after};
ghost use Rattle.rules.specs.Image.{compile_image, table_after};
ghost use Rattle.rules.specs.Lookup as lone;
ghost use Rattle.rules.specs.Call as rule;
ghost use Rattle.rules.specs.Report as prints;
ghost use Rattle.exports.specs.Sheet.{sheet_of, compiled_words, kind_words, term_words, has_room, written};
ghost use Rattle.exports.specs.Part.{term_by, part_words, has_part_room, part_written, pointed};

// A catalog image compiled into a lent table.
#[unsafe(no_mangle)]
pub extern "C" fn kind_compile(image: &[u8], table: &mut [u32], out: &mut [u32]) -> bool
    ensures value { result ≡ has_room out.old }
    ensures out_after { out.new ≡ written (sheet_of compiled_words (compile_image image.now (length table.old))) out.old }
    ensures table_after { table.new ≡ table_after image.now table.old }
{
    exports::kind_compile(image, table, out)
}

// Two kinds combined by the code of a token, 2 to 7.
#[unsafe(no_mangle)]
pub extern "C" fn kind_combine(
    table: &[u32],
    rows: &[u32],
    twins: &mut [u16],
    code: u8,
    left: u16,
    right: u16,
    out: &mut [u32],
) -> bool
    ensures value { result ≡ has_room out.old }
    ensures out_after { out.new ≡ written (sheet_of kind_words (lone.combine table.now rows.now twins.old code left right)) out.old }
    ensures twins_after { twins.new ≡ twins_after (lone.combine table.now rows.now twins.old code left right) twins.old }
{
    exports::kind_combine(table, rows, twins, code, left, right, out)
}

// A kind to the exponent num / den.
#[unsafe(no_mangle)]
pub extern "C" fn kind_power(
    table: &[u32],
    twins: &mut [u16],
    base: u16,
    num: i32,
    den: u32,
    out: &mut [u32],
) -> bool
    ensures value { result ≡ has_room out.old }
    ensures out_after { out.new ≡ written (sheet_of kind_words (lone.power table.now twins.old base (lone.exact num den))) out.old }
    ensures twins_after { twins.new ≡ twins_after (lone.power table.now twins.old base (lone.exact num den)) twins.old }
{
    exports::kind_power(table, twins, base, num, den, out)
}

// A kind to an inexact exponent.
#[unsafe(no_mangle)]
pub extern "C" fn kind_power_inexact(
    table: &[u32],
    twins: &mut [u16],
    base: u16,
    out: &mut [u32],
) -> bool
    ensures value { result ≡ has_room out.old }
    ensures out_after { out.new ≡ written (sheet_of kind_words (lone.power table.now twins.old base lone.inexact)) out.old }
    ensures twins_after { twins.new ≡ twins_after (lone.power table.now twins.old base lone.inexact) twins.old }
{
    exports::kind_power_inexact(table, twins, base, out)
}

// A formula's tokens, 12 bytes each, run over a table and rows.
#[unsafe(no_mangle)]
pub extern "C" fn kind_formula(
    table: &[u32],
    rows: &[u32],
    twins: &mut [u16],
    bytes: &[u8],
    out: &mut [u32],
) -> bool
    ensures value { result ≡ has_room out.old }
    ensures out_after { out.new ≡ written (sheet_of term_words (rule.call table.now rows.now twins.old bytes.now)) out.old }
    ensures twins_after { twins.new ≡ twins_after (rule.call table.now rows.now twins.old bytes.now) twins.old }
{
    exports::kind_formula(table, rows, twins, bytes, out)
}

// Which part of what is lent the report prints: of the image for a kind, of the word for a number.
#[unsafe(no_mangle)]
pub extern "C" fn kind_report(
    image: &[u8],
    word: &[u8],
    kinded: bool,
    kind: u16,
    part: &mut [usize],
) -> bool
    ensures value { result ≡ has_part_room part.old }
    ensures part_after { part.new ≡ part_written (part_words image.now word.now (term_by kinded kind)) part.old }
    ensures part_after_2 { result ≡ true → pointed image.now word.now part.new ≡ prints.report image.now word.now (term_by kinded kind) }
{
    exports::kind_report(image, word, kinded, kind, part)
}
