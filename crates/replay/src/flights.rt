// The list of whole flights: after `< ` the input of fly in hex, then the lines that fly prints for it, each after `> `.
ghost use Rattle.std.specs.Prelude.{IfSome, ◌≡◌, ◌≤◌, [], length};

use crate::tally::Tally;
use crate::{TakesLines, words};
use airframe::Airframe;
use arrayvec::ArrayVec;
use lines::{Flown, Log, Page};
use std::io;

// How the lines of the flight at hand stand to what fly prints for it.
#[derive(Clone, Copy)]
enum Progress {
    // There is no flight yet.
    Before,
    // All lines so far were found; what is on the page from `at` on is left.
    Same { at: usize },
    Different,
}

// The flights as far as their lines are taken, and the page of what fly prints for the one at hand.
#[derive(Drop)]
pub struct Flights {
    tally: Tally,
    page: Page,
    progress: Progress,
}

impl Flights {
    pub fn new() -> Self {
        Flights {
            tally: Tally::default(),
            page: Page::new(),
            progress: Progress::Before,
        }
    }

    // An input's line: the flight before it is counted, and what fly prints for this one is put on the page.
    fn input(&mut self, digits: &[u8]) {
        self.tally = self.tally();
        self.page.clear();
        print(decode(digits).as_slice(), &mut self.page);
        self.progress = Progress::Same { at: 0 };
    }

    // A printed line: it has to be the next of the page.
    fn output(&mut self, line: &[u8]) {
        if let Progress::Same { at } = self.progress {
            let text = self.page.text();
            self.progress = match text.get(at..).and_then(|left| behind_line(left, line)) {
                Some(left) => Progress::Same {
                    at: text.len() - left.len(),
                },
                None => Progress::Different,
            };
        }
    }
}

impl TakesLines for Flights {
    fn take(&mut self, line: &[u8]) -> io::Result<()> {
        match line {
            [b'<', _, digits @ ..] => self.input(digits),
            [b'>', _, printed @ ..] => self.output(printed),
            _ => {}
        }
        Ok(())
    }

    // The flights with the one at hand, where all its lines were found and none was left.
    fn tally(&self) -> Tally {
        let mut tally = self.tally;
        match self.progress {
            Progress::Before => {}
            Progress::Same { at } => tally.count(at == self.page.text().len()),
            Progress::Different => tally.count(false),
        }
        tally
    }
}

// What is left behind the line and its newline; `None` where they do not come first.
fn behind_line<'a>(left: &'a [u8], line: &[u8]) -> Option<&'a [u8]>
    ensures { IfSome result (λ rest. length rest.now ≤ length left.now) }
{
    left.strip_prefix(line)?.strip_prefix(b"\n")
}

// The bytes that the hex digits spell, as far as there is room.
fn decode(digits: &[u8]) -> ArrayVec<u8, 4096> {
    let mut bytes = ArrayVec::new();
    for pair in digits.chunks_exact(2) {
        if bytes.try_push(words::pair(pair, 0)).is_err() {
            break;
        }
    }
    bytes
}

// Puts what fly prints for the input on the page.
fn print(input: &[u8], page: &mut Page)
    requires short { length input.now ≤ 4096 }
    requires blank { page.old ≡ [] }
{
    let wanted = match input {
        [first, second, ..] => lines::airframe_wanted(*first, *second),
        _ => input.len(),
    };
    let (block, rest) = input.split_at(wanted.min(input.len()));
    let read = airframe_block::read_airframe(block);
    match read.answer {
        Ok(()) => print_flight(read.airframe, rest, page),
        Err(_) => page.put_refusal(read.answer),
    }
}

// The same behind the airframe.
fn print_flight(airframe: Airframe, input: &[u8], page: &mut Page)
    requires short { length input.now ≤ 4096 }
    requires blank { page.old ≡ [] }
{
    let (block, ticks) = input.split_at(state_block::STATE_BYTES.min(input.len()));
    let read = state_block::read_full_state(block);
    match read.answer {
        Ok(()) => {
            lines::fly_ticks(airframe, Flown::start(read.flight), ticks, page);
            page.put_end(ticks.len());
        }
        Err(_) => page.put_refusal(read.answer),
    }
}
