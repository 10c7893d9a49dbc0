// Unsigned big-endian numbers of 1 to 8 bytes at a place in bytes: one definition for every width.
#![tactic(auto)]

ghost use Rattle.std.specs.Prelude.{◌≡◌, ◌+◌, ◌^◌, ◌<◌, ◌≤◌, length};
ghost use Rattle.numbers.specs.Number.{get, put};

// The number in the `width` bytes at `at`, the highest byte first.
pub fn get_number(b: &[u8], at: usize, width: usize) -> u64
    requires { (at + width ≤ length b.now) × (width ≤ 8) }
    ensures { (result ≡ get b.now at width) × (result < 256 ^ width) }
{
    let mut x = 0u64;
    for byte in &b[at..at + width] {
        x = x * 256 + u64::from(*byte);
    }
    x
}

// The number `x`, less whole multiples of what the width holds, is stored in the `width` bytes at `at`.
pub fn put_number(b: &mut [u8], at: usize, width: usize, x: u64)
    requires { at + width ≤ length b.old }
    ensures { b.new ≡ put b.old at width x }
{
    let mut rest = x;
    for i in (0..width).rev() {
        b[at + i] = (rest % 256) as u8;
        rest /= 256;
    }
}
