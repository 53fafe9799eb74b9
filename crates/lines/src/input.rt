// Where the input comes from, and its bytes.
ghost use Rattle.std.specs.Prelude.{◌≡◌, ◌≤◌, length};
ghost use Rattle.lines.specs.Asked.{asked_by};
ghost use Rattle.lines.specs.Page.{page_bytes};

use crate::page::PAGE_BYTES;
use std::env::FillError;
use std::fs::File;
use std::io;
use std::io::Read;
use std::rt::Env;

// What the program is asked to read: the file that its argument names, standard input, or nothing.
#[derive(Clone, Copy)]
pub enum Asked {
    File,
    StandardInput,
    Nothing,
}

// By how many words the program was called with, its own name among them, and whether standard input is a terminal.
#[tactic(auto, unfolding(crate::specs::Asked::asked_by))]
pub fn asked_for(words: usize, terminal: bool) -> Asked
    ensures { result ≡ asked_by words terminal }
{
    if words > 2 {
        return Asked::Nothing;
    }
    if words == 2 {
        return Asked::File;
    }
    if terminal {
        return Asked::Nothing;
    }
    Asked::StandardInput
}

// Whether the program was called with a word i, its own name being word 0.
fn has_word(rt: &HostRuntime, i: usize) -> bool {
    let mut start = [0u8; 1];
    !matches!(rt.arg(i, &mut start), Err(FillError::NotPresent))
}

// How many words the program was called with: 3 stands for more, too.
pub fn word_count(rt: &HostRuntime) -> usize
    ensures { result ≤ 3 }
{
    for i in 0..3 {
        if !has_word(rt, i) {
            return i;
        }
    }
    3
}

// The first argument, in the buffer that is lent: one that is longer is taken for an empty one.
pub fn first_argument<'a>(rt: &HostRuntime, name: &'a mut [u8; PAGE_BYTES]) -> &'a [u8]
    ensures { length result.now ≤ page_bytes }
{
    let n = rt.arg(1, name).unwrap_or(0);
    &name[..n]
}

// Opens the file of that name. The system's names are bytes, those that can be opened are text.
pub fn open_named(rt: &HostRuntime, name: &[u8]) -> io::Result<File> {
    match std::str::from_utf8(name) {
        Ok(path) => File::open(rt, path),
        Err(_) => Err(io::Error::new(io::ErrorKind::InvalidInput, "The name is not UTF-8")),
    }
}

// What the bytes are read from, and the error of a read that failed.
#[derive(Drop)]
pub struct Input<R> {
    pub reader: R,
    pub error: Option<io::Error>,
}

impl<R> Input<R> {
    // Nothing is read yet.
    pub fn new(reader: R) -> Input<R>
        ensures reader { result.reader ≡ reader }
        ensures error { result.error ≡ None }
    {
        Input {
            reader,
            error: None,
        }
    }
}

impl<R: Read> Input<R> {
    // Reads on into s until it is full, the input ends or a read fails, and answers how many bytes came.
    pub fn fill(&mut self, s: &mut [u8]) -> usize
        ensures { result ≤ length s.old }
    {
        let mut end = 0;
        // It reads as much as comes, and counts no index.
        while end < s.len() {
            match self.reader.read(&mut s[end..]) {
                Ok(0) => break,
                Ok(more) => end += more,
                Err(error) => {
                    self.error = Some(error);
                    break;
                }
            }
        }
        end
    }
}
