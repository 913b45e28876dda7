// An image compiled: checked, its words made, the rules asked in document 01's order, and the words written into the lent table.
ghost use Rattle.std.specs.Prelude.{◌≡◌, ◌+◌, ◌*◌, ◌≤◌, length, replicate};
ghost use Rattle.laws.specs.Out.{given};
ghost use Rattle.laws.specs.Ranges.{overlay};
ghost use Rattle.error.specs.Shown.{fine};
ghost use Rattle.rules.specs.Layout as layout;
ghost use Rattle.rules.specs.Catalog.{catalog_in};
ghost use Rattle.rules.specs.Compile as rule;
ghost use Rattle.rules.specs.Image.{lent_check, compile_image, table_after};
ghost use Rattle.compile.specs.Shown.{kinds_ruled, whole, compiled};

use crate::declared::Declared;
use crate::ids::check_id;
use crate::kinds::check_kinds;
use crate::links::{check_difference, check_dimensionless, check_time};
use crate::rates::check_rate;
use crate::rows::check_rows;
use catalog::{KeyedImage, keys_of, kind_count};
use error::Fault;
use image::check_lent;
use table::ROWS;
use written::table_words;

// The rules of kinds: ids, differences, the dimensionless kind, time, rates.
fn check_declared(c: Declared) -> Result<(), Fault>
    ensures { result ≡ fine (kinds_ruled (catalog_in c.entry.image.now)) }
{
    let keys = keys_of(c.image).words;
    let keyed = KeyedImage {
        image: c.image,
        keys: &keys,
    };
    let n = kind_count(c.image);
    check_kinds(n, |k| check_id(keyed, k))?;
    check_kinds(n, |k| check_difference(c, k))?;
    check_dimensionless(c)?;
    check_time(c)?;
    check_kinds(n, |k| check_rate(c, k))
}

// 10 to 27.
#[tactic(auto, using(crate::proofs::Stages::kinds_stop, crate::proofs::Stages::rows_answer))]
fn check_rules(c: Declared) -> Result<(), Fault>
    ensures { result ≡ fine (rule.compiles (catalog_in c.entry.image.now)) }
{
    check_declared(c)?;
    check_rows(c)
}

// Puts all words in front of what the table holds, one by one: `copy_from_slice` of two lent lists would be `memmove` of the C library, which no
// program that links the archive needed before.
#[tactic(auto, using(crate::proofs::Copied::copies))]
fn copy(words: &[u32], table: &mut [u32])
    requires { length words.now ≤ length table.old }
    ensures { table.new ≡ overlay words.now table.old }
{
    for i in 0..words.len() {
        table[i] = words[i];
    }
}

// Writes the table: the front, zeros up to the rows, the rows.
fn write(front: &[u32], rows: &[u32], table: &mut [u32])
    requires front_len_bound { length front.now ≤ 7696 }
    requires rows_len { length rows.now ≡ 1600 }
    requires in_bounds { 9296 ≤ length table.old }
    ensures { table.new ≡ overlay (whole front.now rows.now) table.old }
{
    let n = front.len();
    copy(front, table);
    table[n..ROWS].fill(0);
    table[ROWS..ROWS + rows.len()].copy_from_slice(rows);
}

// From 10 on. The table's front is made in words of its own, which are zeros at first: where a rule refuses, the table is as it was.
fn compile_in(image: &[u8], front: &mut [u32], table: &mut [u32]) -> Result<(), Fault>
    requires table_value { lent_check image.now (length table.old) ≡ given tt }
    requires front_value { front.old ≡ replicate (length front.old) 0 }
    requires image_in_bounds { 16 + 32 * layout.kind_count image.now ≤ length front.old }
    requires front_len_bound { length front.old ≤ 7696 }
    ensures value { result ≡ compiled (compile_image image.now (length table.old)) }
    ensures table_after { table.new ≡ table_after image.now table.old }
{
    let written = table_words(image, front);
    let rows = written.rows;
    let named = written.named;
    check_rules(Declared {
        image,
        t: front,
        rows: &rows,
        named: &named,
    })?;
    write(front, &rows, table);
    Ok(())
}

// Ok, and the table's first 9,296 words are written; or refused, and the table is as it was. The front of up to 60 kinds is
// made in 16 + 32 * 60 words, so that a small catalog makes and copies fewer.
pub fn compile(image: &[u8], table: &mut [u32]) -> Result<(), Fault>
    ensures value { result ≡ compiled (compile_image image.now (length table.old)) }
    ensures table_after { table.new ≡ table_after image.now table.old }
{
    check_lent(image, table.len())?;
    if kind_count(image) <= 60 {
        let mut few = [0u32; 1936];
        return compile_in(image, &mut few, table);
    }
    let mut all = [0u32; 7696];
    compile_in(image, &mut all, table)
}
