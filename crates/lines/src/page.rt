// A page of text: standard output is written a page at a time.
ghost use Rattle.std.specs.Prelude.{◌≡◌, ◌+◌, ◌<◌, ◌≤◌, ◌++◌, [], length};
ghost use Rattle.lines.specs.Text.{byte_text, digits_of, end_text, refusal_text};
ghost use Rattle.lines.specs.Page.{line_bytes, page_bytes};

use crate::digits;
use answers::{Answer, Refusal};
use std::marker::Model;

// How many bytes have room on a page.
pub const PAGE_BYTES: usize = 65536;

// The bytes written so far, in a buffer of its own: the programs take no memory at run time. That a text has room is asked of a caller:
// it is so of the page as it stands, not of every page.
#[derive(Drop)]
pub struct Page {
    bytes: [u8; PAGE_BYTES],
    len: usize,
}

impl Model for Page {
    ghost use Rattle.std.specs.Prelude.{ℕ, ◌≤◌, List, take};
    ghost use Rattle.lines.specs.Page.{page_bytes};

    ghost Value = { List ℕ };

    ghost view = { λ p. take p.len p.bytes };

    ghost invariant = { λ p. p.len ≤ page_bytes };
}

impl Page {
    // Nothing is written yet.
    pub fn new() -> Page
        ensures { result ≡ [] }
    {
        Page {
            bytes: [0; PAGE_BYTES],
            len: 0,
        }
    }

    pub fn clear(&mut self)
        ensures { self.new ≡ [] }
    {
        self.len = 0;
    }

    // The text on the page.
    pub fn text(&self) -> &[u8]
        ensures { result.now ≡ self.now }
    {
        &self.bytes[..self.len]
    }

    pub fn put_byte(&mut self, b: u8)
        requires { length self.old < page_bytes }
        ensures { self.new ≡ self.old ++ byte_text b }
    {
        self.bytes[self.len] = b;
        self.len += 1;
    }

    pub fn put_text(&mut self, text: &[u8])
        requires { length self.old + length text.now ≤ page_bytes }
        ensures { self.new ≡ self.old ++ text.now }
    {
        let end = self.len + text.len();
        self.bytes[self.len..end].copy_from_slice(text);
        self.len = end;
    }

    // Puts the last k digits of n in the base.
    #[tactic(auto, using(crate::proofs::Texts::length_digits))]
    pub fn put_digits(&mut self, n: u64, base: u64, k: usize)
        requires nonzero { 0 < base }
        requires small { base ≤ 16 }
        requires room { length self.old + k ≤ page_bytes }
        ensures page { self.new ≡ self.old ++ digits_of base k n }
        ensures end { length self.new ≡ length self.old + k }
    {
        let end = self.len + k;
        digits::write_digits(&mut self.bytes[self.len..end], n, base);
        self.len = end;
    }

    // Puts the line of a refused read: 0, its answer and its place.
    #[tactic(auto, unfolding(crate::specs::Text::refusal_text))]
    pub fn put_refusal(&mut self, answer: Answer)
        requires { length self.old + line_bytes ≤ page_bytes }
        ensures page { self.new ≡ self.old ++ refusal_text answer }
        ensures within { length self.new ≤ length self.old + line_bytes }
    {
        self.put_byte(b'0');
        self.put_byte(b' ');
        self.put_decimal(u64::from(answers::number(answer)));
        self.put_byte(b' ');
        self.put_decimal(u64::from(answers::place(answer)));
        self.put_byte(b'\n');
    }

    // Puts a refusal where the last `n` bytes read were not whole ticks.
    #[tactic(auto, unfolding(crate::specs::Text::end_text))]
    pub fn put_end(&mut self, n: usize)
        requires { length self.old + line_bytes ≤ page_bytes }
        ensures page { self.new ≡ self.old ++ end_text n }
        ensures within { length self.new ≤ length self.old + line_bytes }
    {
        if n % trace::TICK_BYTES != 0 {
            self.put_refusal(Err(Refusal::WrongLength));
        }
    }
}
