// A file read line by line through a page.
ghost use Rattle.std.specs.Prelude.{◌≤◌};
ghost use Rattle.lines.specs.Page.{page_bytes};

use lines::PAGE_BYTES;
use std::io::Read;

// The bytes from `at` to `end` of the page are read and not yet taken. A buffer of its own: the program takes no memory at run time.
#[derive(Drop)]
pub struct Source<'a, R> {
    file: &'a mut R,
    page: [u8; PAGE_BYTES],
    at: usize,
    end: usize,
    ghost order: { at ≤ end },
    ghost within: { end ≤ page_bytes },
}

impl<'a, R: Read> Source<'a, R> {
    // Nothing is read yet.
    pub fn new(file: &'a mut R) -> Self {
        Source {
            file,
            page: [0; PAGE_BYTES],
            at: 0,
            end: 0,
        }
    }

    // The next line, without its newline, as far as it fits on the page; `None` where the file has ended.
    pub fn line(&mut self) -> Option<&[u8]> {
        if !self.page[self.at..self.end].contains(&b'\n') {
            self.refill();
        }
        let left = &self.page[self.at..self.end];
        if left.is_empty() {
            return None;
        }
        let len = left
            .iter()
            .position(|byte| *byte == b'\n')
            .unwrap_or(left.len());
        let from = self.at;
        self.at = (from + len + 1).min(self.end);
        let page = &self.page;
        Some(&page[from..from + len])
    }

    // Moves what is left to the page's start, and reads on until the page is full or the file ends. A read that fails ends the file.
    fn refill(&mut self) {
        self.page.copy_within(self.at..self.end, 0);
        self.end -= self.at;
        self.at = 0;
        // It reads as much as comes, and counts no index.
        while self.end < PAGE_BYTES {
            let more = self.file.read(&mut self.page[self.end..]).unwrap_or(0);
            if more == 0 {
                break;
            }
            self.end += more;
        }
    }
}
