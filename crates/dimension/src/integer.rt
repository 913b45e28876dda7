// Integers of 32 bits: their parts, their bits, and sums and products that need 64.
ghost use Rattle.std.specs.Prelude.{◌≡◌, ◌+◌, ◌*◌, ◌≤◌, nat_abs, ◌+ℤ◌, ◌-ℤ◌, ◌*ℤ◌};
ghost use Rattle.dimension.specs.Gcd as G;
ghost use Rattle.dimension.specs.Integer as I;

// The greatest common divisor, by remainders.
pub(crate) fn gcd(a: u64, b: u64) -> u64
    ensures { result ≡ G.gcd a b }
{
    let mut x = a;
    let mut y = b;
    // Not a `for`: how often it turns is not known before, only that y gets smaller.
    while y != 0 {
        let t = x % y;
        x = y;
        y = t;
    }
    x
}

// How far x is above zero. With `u32::try_from(x).unwrap_or(0)` a formula of powers takes 3 in a hundred instructions more, and a compilation of fractions 2.
pub(crate) fn up(x: i32) -> u32
    ensures value { result ≡ I.up x }
    ensures upper_bound { result ≤ 2147483648 }
{
    if x < 0 { 0 } else { x.cast_unsigned() }
}

// How far x is below zero.
pub(crate) fn down(x: i32) -> u32
    ensures value { result ≡ I.down x }
    ensures upper_bound { result ≤ 2147483648 }
{
    if x < 0 { x.unsigned_abs() } else { 0 }
}

// |x|.
pub(crate) fn size(x: i32) -> u64
    ensures { result ≡ nat_abs x }
{
    u64::from(x.unsigned_abs())
}

// x with a sign. It goes by `as`: the bound says that it fits, so a `try_from` would have an error that no x gives.
pub(crate) fn signed(negative: bool, x: u64) -> i32
    requires { x ≤ 2147483647 }
    ensures { result ≡ I.signed negative x }
{
    if negative { -(x as i32) } else { x as i32 }
}

// a b.
pub(crate) fn by(a: u32, b: u32) -> u64
    ensures { result ≡ a * b }
{
    u64::from(a) * u64::from(b)
}

// a b + c d. The bounds are those of `up` and `down`, whose parts of numerators a and c are: a type that carries the bound would be opened here alone.
pub(crate) fn cross(a: u32, b: u32, c: u32, d: u32) -> u64
    requires a_bound { a ≤ 2147483648 }
    requires c_bound { c ≤ 2147483648 }
    ensures { result ≡ a * b + c * d }
{
    by(a, b) + by(c, d)
}

// The number that 16 bits stand for, by two's complement. This and the next differ in the width alone, a call of std's each: a trait over the
// two widths would be longer.
pub fn signed16(bits: u16) -> i32
    ensures { result ≡ I.twos 32768 bits }
{
    i32::from(bits.cast_signed())
}

// The number that 32 bits stand for, by two's complement.
pub fn signed32(bits: u32) -> i32
    ensures { result ≡ I.twos 2147483648 bits }
{
    bits.cast_signed()
}

// The 32 bits that stand for a number.
pub fn bits32(x: i32) -> u32
    ensures { result ≡ I.bits32 x }
{
    x.cast_unsigned()
}
