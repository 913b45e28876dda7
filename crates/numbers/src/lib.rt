// Numbers in lent bytes, little-endian; what lies past the end is 0. `byte_at` alone indexes the bytes.
#![tactic(auto)]

ghost use Rattle.std.specs.Prelude.{◌≡◌, ◌+◌, ◌*◌};
ghost use Rattle.rules.specs.Bytes.{byte, le2, le4};

pub fn byte_at(s: &[u8], i: usize) -> u8
    ensures { result ≡ byte s.now i }
{
    s.get(i).copied().unwrap_or(0)
}

// The 16-bit number of two bytes, the lower one first. They are handed over one by one: `from_le_bytes` over a part of the bytes was tried, and is slower
// on every program, by 2 to 6 of a hundred instructions.
pub fn u16_of(low: u8, high: u8) -> u16
    ensures { result ≡ low + 256 * high }
{
    u16::from(low) + 256 * u16::from(high)
}

// This and the next differ in the width: one function for both would be asked for it, and answer a wider number than either.
#[tactic(auto, using(crate::proofs::Past::le2_past), unfolding(rules::specs::Bytes::le2))]
pub fn u16_at(s: &[u8], at: usize) -> u16
    ensures { result ≡ le2 s.now at }
{
    if s.len() <= at {
        return 0;
    }
    u16_of(byte_at(s, at), byte_at(s, at + 1))
}

#[tactic(auto, using(crate::proofs::Past::le4_past, crate::proofs::Past::le4_short), unfolding(rules::specs::Bytes::le4))]
pub fn u32_at(s: &[u8], at: usize) -> u32
    ensures { result ≡ le4 s.now at }
{
    if s.len() <= at {
        return 0;
    }
    if s.len() - at <= 2 {
        return u32::from(u16_at(s, at));
    }
    u32::from(u16_at(s, at)) + 65536 * u32::from(u16_at(s, at + 2))
}
