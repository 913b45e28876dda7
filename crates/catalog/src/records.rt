// How many records there are, and where each begins.
ghost use Rattle.std.specs.Prelude.{◌≡◌, ◌≤◌, ◌<◌, ◌+◌, ◌*◌, ◌/◌, ◌%◌};
ghost use Rattle.rules.specs.Layout as layout;
ghost use Rattle.rules.specs.Catalog.{kind_at, row_at};

use numbers::u16_at;

// The ids of the dimensionless and the time kind.
pub const DIMENSIONLESS: u32 = 12;

pub const TIME: u32 = 44;

pub fn kind_count(image: &[u8]) -> u16
    ensures { result ≡ layout.kind_count image.now }
{
    u16_at(image, 8)
}

pub fn row_count(image: &[u8]) -> u16
    ensures { result ≡ layout.row_count image.now }
{
    u16_at(image, 10)
}

// The place of record n of a part whose first block is `first`, m to a block, from byte 4 of it, of so many bytes each.
fn record_place(first: u32, m: u32, bytes: u32, n: u32) -> u32
    requires m_nonzero { 0 < m }
    requires room { bytes * m ≤ 504 }
    requires bounds { (first < 100000) × (n < 65536) }
    ensures { result ≡ 512 * (first + n / m) + 4 + n % m * bytes }
{
    512 * (first + n / m) + 4 + n % m * bytes
}

// Kinds stand three to a block.
pub fn kind_place(k: u16) -> u32
    ensures { result ≡ kind_at k }
{
    record_place(1, 3, 148, u32::from(k))
}

// Rows stand five to a block, after the kinds.
pub fn row_place(image: &[u8], r: u16) -> u32
    ensures { result ≡ row_at image.now r }
{
    let kinds = u32::from(kind_count(image));
    record_place(1 + (kinds + 2) / 3, 5, 100, u32::from(r))
}
