// The natural logarithm (02, 4).
ghost use Rattle.std.specs.Prelude.{◌≡◌, ◌<◌, ◌≤◌};
ghost use Rattle.std.specs.Float.Ieee as Ieee;
ghost use Rattle.std.specs.Float.{binary32};
ghost use Rattle.libm.specs.Promises as Promises;
ghost use Rattle.libm.specs.Log as Log;

// A number above 0 as mantissa times 2 to the exponent, the mantissa at least 0.70710677 and less than its double.
#[derive(Clone, Copy)]
struct Split {
    mantissa: f32,
    exponent: i64,
}

// The parts of the number with the pattern b, which is not below the normal range. A pattern is 2^23 more where its number is twice as
// much. So what b is above 3F3504F3, the pattern of 0.70710677, is n times 2^23 and a rest, by which the mantissa's is above it; 127 times
// 2^23 more, the pattern of 1, keeps the difference above 0.
fn mantissa_and_exponent(b: u32) -> Split
    requires normal { 0x80_0000 ≤ b }
    requires finite { b < 0x7f80_0000 }
    ensures { Promises.SplitOf (Ieee.of_bits binary32 b) result.mantissa result.exponent }
{
    let above = b + 0x3f80_0000 - 0x3f35_04f3;
    Split {
        mantissa: f32::from_bits(above % 0x80_0000 + 0x3f35_04f3),
        exponent: (above / 0x80_0000) as i64 - 127,
    }
}

// ln of a mantissa.
fn near(m: f32) -> f32
    ensures { result ≡ Log.ln_near m }
{
    let s = (m - 1.0) / (m + 1.0);
    let z = s * s;
    2.0 * s * (1.0 + z * (0.33333334 + z * (0.2 + z * (0.14285715 + z / 9.0))))
}

// ln of m · 2^n.
fn joined(m: f32, n: i64) -> f32
    requires { Promises.Binary n }
    ensures { result ≡ Log.ln_of_parts m n }
{
    near(m) + n as f32 * 0.6931472
}

// ln of the positive number with the pattern b, which the one caller has tested. Below the normal range that number is b times 2^-149.
fn positive(b: u32) -> f32
    requires above_zero { 0 < b }
    requires finite { b < 0x7f80_0000 }
    ensures { result ≡ Log.ln_of (Ieee.of_bits binary32 b) }
{
    if b < 0x80_0000 {
        let p = mantissa_and_exponent(f32::to_bits(b as f32));
        return joined(p.mantissa, p.exponent - 149);
    }
    let p = mantissa_and_exponent(b);
    joined(p.mantissa, p.exponent)
}

// ln v: -∞ at 0, and a NaN below.
pub fn logf(v: f32) -> f32
    ensures { result ≡ Log.ln_of v }
{
    if v > 0.0 {
        let b = f32::to_bits(v);
        if b < 0x7f80_0000 {
            return positive(b);
        }
        return v;
    }
    if v == 0.0 {
        return f32::from_bits(0xff80_0000);
    }
    0.0 / 0.0
}
