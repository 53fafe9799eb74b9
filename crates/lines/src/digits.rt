// Numbers as text: decimal, and a float's bits as eight hex digits.
ghost use Rattle.std.specs.Prelude.{◌≡◌, ◌+◌, ◌<◌, ◌≤◌, ◌++◌, length};
ghost use Rattle.std.specs.Float.Ieee as Ieee;
ghost use Rattle.std.specs.Float.{binary32};
ghost use Rattle.float.specs.Same.{num};
ghost use Rattle.lines.specs.Glyph.{glyph_of};
ghost use Rattle.lines.specs.Text.{decimal_text, digit_count, digits_of, word_text};
ghost use Rattle.lines.specs.Page.{page_bytes};

use crate::page::Page;

// The bits of x as a line shows them: any zero 0, any NaN 7FC00000.
fn shown(x: f32) -> u32
    ensures { result ≡ Ieee.to_bits binary32 (num x) }
{
    if x == 0.0 {
        return 0;
    }
    float::to_bits(x)
}

// The digit d of a base up to 16, upper case.
#[tactic(auto, unfolding(crate::specs::Glyph::glyph_of))]
fn glyph(d: u64) -> u8
    requires { d < 16 }
    ensures { result ≡ glyph_of d }
{
    if d < 10 {
        return d as u8 + 48;
    }
    d as u8 + 55
}

// Writes as many of the last digits of n in the base as have room. Not by `Display`: decimal numbers and words of eight hex digits are
// this one loop, which writes into the page itself.
pub fn write_digits(room: &mut [u8], n: u64, base: u64)
    requires nonzero { 0 < base }
    requires small { base ≤ 16 }
    ensures { room.new ≡ digits_of base (length room.old) n }
{
    let mut rest = n;
    let k = room.len();
    for i in 0..k {
        room[k - 1 - i] = glyph(rest % base);
        rest = rest / base;
    }
}

// How many decimal digits n has.
fn digit_count(n: u64) -> usize
    ensures count { result ≡ digit_count 19 n }
    ensures within { result ≤ 20 }
{
    let mut rest = n;
    for k in 1..20 {
        if rest < 10 {
            return k;
        }
        rest = rest / 10;
    }
    20
}

impl Page {
    // Puts a space and the eight hex digits of x.
    #[tactic(auto, unfolding(crate::specs::Text::word_text))]
    pub fn put_word(&mut self, x: f32)
        requires { length self.old + 9 ≤ page_bytes }
        ensures page { self.new ≡ self.old ++ word_text x }
        ensures within { length self.new ≤ length self.old + 9 }
    {
        self.put_byte(b' ');
        self.put_digits(u64::from(shown(x)), 16, 8);
    }

    // Puts n in decimal.
    #[tactic(auto, unfolding(crate::specs::Text::decimal_text))]
    pub fn put_decimal(&mut self, n: u64)
        requires { length self.old + 20 ≤ page_bytes }
        ensures page { self.new ≡ self.old ++ decimal_text n }
        ensures within { length self.new ≤ length self.old + 20 }
    {
        self.put_digits(n, 10, digit_count(n));
    }
}
