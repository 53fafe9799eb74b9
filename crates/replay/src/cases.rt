// The cases of a list, a line for each: its inputs, what answers them, and whether the two agree.
ghost use Rattle.std.specs.Prelude.{◌≡◌};
ghost use Rattle.std.specs.Float.Ieee as Ieee;
ghost use Rattle.std.specs.Float.{binary32};
ghost use Rattle.float.specs.Same.{num};

use crate::lists::List;
use crate::numbers::Answers;
use crate::tally::Tally;
use crate::{TakesLines, line_words, report};
use std::io;

// The lines of a list, as far as they are taken.
#[derive(Drop)]
pub struct Cases<'a> {
    rt: &'a HostRuntime,
    list: List,
    tally: Tally,
}

impl<'a> Cases<'a> {
    pub fn new(rt: &'a HostRuntime, list: List) -> Self {
        Cases {
            rt,
            list,
            tally: Tally::default(),
        }
    }
}

impl TakesLines for Cases<'_> {
    // Replays the case, and counts it. A comment is none.
    fn take(&mut self, line: &[u8]) -> io::Result<()> {
        if line.starts_with(b"#") {
            return Ok(());
        }
        let case = line_words::read(line);
        let answers = match &case {
            Some(case) => self.list.answers(case.inputs()),
            None => None,
        };
        let same = match (&case, &answers) {
            (Some(case), Some(answers)) => agree(case.expected(), answers.words()),
            _ => false,
        };
        self.tally.count(same);
        if same {
            return Ok(());
        }
        report::difference(self.rt, self.tally.cases(), line, answers.as_ref())
    }

    fn tally(&self) -> Tally {
        self.tally
    }
}

// One word for each number: zeros alike, NaNs alike.
fn plain(b: u32) -> u32
    ensures { result ≡ Ieee.to_bits binary32 (num (Ieee.of_bits binary32 b)) }
{
    let x = float::from_bits(b);
    if x == 0.0 {
        return 0;
    }
    float::to_bits(x)
}

// Whether the words are the same numbers.
fn agree(a: &[u32], b: &[u32]) -> bool {
    a.len() == b.len() && a.iter().zip(b).all(|(a, b)| plain(*a) == plain(*b))
}
