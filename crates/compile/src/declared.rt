// An image with what the rules read of it.
ghost use Rattle.std.specs.Prelude.{◌≡◌, ◌≤◌};
ghost use Rattle.rules.specs.Layout as layout;
ghost use Rattle.written.specs.Shown.{rows_in, named_in};
ghost use Rattle.compile.specs.Shown.{Reads};

use written::Named;

// The words t begin those that a compilation of the image writes, rows are the words of its rows in force, and named is what its rows' ids name. What the
// id of a kind or of the header names is read from t, and the image says only whether it is declared.
#[derive(Clone, Copy)]
pub(crate) struct Declared<'a> {
    pub(crate) image: &'a [u8],
    pub(crate) t: &'a [u32],
    pub(crate) rows: &'a [u32],
    pub(crate) named: &'a [Named],
    ghost reads: { Reads t.now image.now },
    ghost rows_value: { rows.now ≡ rows_in image.now },
    ghost named_value: { named.now ≡ named_in image.now },
    ghost few_kinds: { layout.kind_count image.now ≤ 240 },
    ghost few_rows: { layout.row_count image.now ≤ 200 },
}
