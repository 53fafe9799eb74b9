// 32-bit floats by their bits and bytes, truncation, sizes and limits. No flight in it.
#![tactic(auto)]

ghost use Rattle.std.specs.Prelude.{◌≡◌, ◌+◌, ◌*◌, ◌%◌, ◌<◌, ◌≤◌, true, false, T, length, pos};
ghost use Rattle.std.specs.Float.Ieee as Ieee;
ghost use Rattle.std.specs.Float.{fin, binary32};
ghost use Rattle.float.specs.Bytes.{word, put};
ghost use Rattle.float.specs.Promises.{whole_part};
ghost use Rattle.float.specs.Notation as Notation;
ghost use Rattle.float.specs.Interval as Interval;

// The float with these bits; any NaN's bits give a NaN. (std's `from_bits` takes no NaN's bits.)
pub fn from_bits(b: u32) -> f32
    ensures { result ≡ Ieee.of_bits binary32 b }
{
    if b % 0x8000_0000 > 0x7f80_0000 {
        0.0 / 0.0
    } else {
        f32::from_bits(b)
    }
}

// The bits of x; 7FC00000 for a NaN. (std's `to_bits` takes no NaN.)
pub fn to_bits(x: f32) -> u32
    ensures { result ≡ Ieee.to_bits binary32 x }
{
    if x != x { 0x7fc0_0000 } else { f32::to_bits(x) }
}

// The float whose four bytes stand at i in s, big-endian.
pub fn read(s: &[u8], i: usize) -> f32
    requires { i + 4 ≤ length s.now }
    ensures { result ≡ Ieee.of_bits binary32 (word s.now i) }
{
    from_bits(u32::from_be_bytes([s[i], s[i + 1], s[i + 2], s[i + 3]]))
}

// Puts the four bytes of x at i in s, big-endian.
pub fn write(s: &mut [u8], i: usize, x: f32)
    requires { i + 4 ≤ length s.old }
    ensures { s.new ≡ put s.old i (Ieee.to_bits binary32 x) }
{
    let bytes = to_bits(x).to_be_bytes();
    s[i..i + 4].copy_from_slice(&bytes);
}

// x without its fraction, for an x below 2^24 in size.
pub fn truncated(x: f32) -> i64
    requires lower_bound { T (Ieee.lt (fin true 1 (pos 24)) x) }
    requires upper_bound { T (Ieee.lt x (fin false 1 (pos 24))) }
    ensures value { result ≡ Ieee.to_signed 63 x }
    ensures exact { T (Ieee.in_float binary32 result) }
{
    std::num::truncating_f32_to_i64(x)
}

// x without its fraction, as a float; 0 where x is a NaN or not below 2^24 in size. (std's `trunc` leaves these, and -0, as they are.)
pub fn whole_part(x: f32) -> f32
    ensures { result ≡ whole_part x }
{
    if x > -16777216.0 && x < 16777216.0 {
        truncated(x) as f32
    } else {
        0.0
    }
}

// The size of x, |x|.
#[tactic(auto, using(crate::proofs::Magnitude::size_held))]
pub fn abs(x: f32) -> f32
    ensures { result ≡ Notation.abs x }
{
    x.abs()
}

// x where it is above 0, else +0, also for a NaN. (std's `max` leaves open which zero it gives.)
#[tactic(auto, unfolding(crate::specs::Notation::at_least_zero))]
pub fn at_least_zero(x: f32) -> f32
    ensures { result ≡ Notation.at_least_zero x }
{
    if x > 0.0 { x } else { 0.0 }
}

// x brought into lo..hi; a NaN stays. (std's `clamp` takes only a lo that is at most hi.)
#[tactic(auto, unfolding(crate::specs::Notation::clamp))]
pub fn clamp(x: f32, lo: f32, hi: f32) -> f32
    ensures { result ≡ Notation.clamp lo hi x }
{
    if x < lo {
        return lo;
    }
    if hi < x {
        return hi;
    }
    x
}

// Whether x is a number from lo to hi, both included; a NaN is not.
#[tactic(auto, unfolding(crate::specs::Interval::inside))]
pub fn inside(x: f32, lo: f32, hi: f32) -> bool
    ensures { result ≡ Interval.inside lo hi x }
{
    lo <= x && x <= hi
}
