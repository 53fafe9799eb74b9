// Replays the lists of inputs and answers that are the files beside it, and counts the cases where the
// crates' answers differ from the lists'.
#![tactic(auto)]

mod actuators;
mod cases;
mod flights;
mod line_words;
mod lists;
mod modules;
mod numbers;
mod report;
mod source;
mod tally;
mod words;

use cases::Cases;
use flights::Flights;
use lists::List;
use source::Source;
use std::fs::File;
use std::io;
use std::io::Read;
use tally::Tally;

// What the lines of a file are given to, in order.
trait TakesLines {
    fn take(&mut self, line: &[u8]) -> io::Result<()>;

    // The cases of the lines so far.
    fn tally(&self) -> Tally;
}

// Gives the lines of the file to `taker`.
fn replay<R: Read, T: TakesLines>(file: &mut R, taker: &mut T) -> io::Result<()> {
    let mut source = Source::new(file);
    for _ in 0..u64::MAX {
        match source.line() {
            Some(line) => taker.take(line)?,
            None => break,
        }
    }
    Ok(())
}

// Replays the list in the file at `path`, which is the list's name with `.txt` behind it.
fn run<T: TakesLines>(rt: &HostRuntime, path: &str, taker: &mut T) -> io::Result<()> {
    let name = path.strip_suffix(".txt").unwrap_or(path);
    let Ok(mut file) = File::open(rt, path) else {
        return report::missing(rt, name);
    };
    replay(&mut file, taker)?;
    report::counts(rt, name, taker.tally())
}

fn main(rt: HostRuntime) -> io::Result<()> {
    for list in List::ALL {
        run(&rt, list.path(), &mut Cases::new(&rt, list))?;
    }
    run(&rt, "flights.txt", &mut Flights::new())
}
