// A stored file's header.
ghost use Rattle.std.specs.Prelude.{◌≡◌};
ghost use Rattle.stored.specs.Files.{is_group};

use numbers::u32_at;

// The first four bytes of each file.
const MARK: u32 = 0x3141434B;

// Whether the bytes begin with the header of a group's file. The group is the header's number and no enum: each program knows its own groups alone.
#[tactic(auto, unfolding(crate::specs::Files::is_group))]
pub fn is_group(s: &[u8], group: u32) -> bool
    ensures { result ≡ is_group s.now group }
{
    (16 <= s.len()) & (u32_at(s, 0) == MARK) & (u32_at(s, 4) == group)
}
