// What the program says.
use crate::numbers::Answers;
use crate::tally::Tally;
use std::io;

// The case that differs: its number, its line with what is expected, and what came.
pub fn difference(
    rt: &HostRuntime,
    case: u64,
    line: &[u8],
    answers: Option<&Answers>,
) -> io::Result<()> {
    print!(rt; "case {case}: ")?;
    rt.stdout().write_all(line)?;
    print!(rt; " but came")?;
    if let Some(answers) = answers {
        for word in answers.words() {
            print!(rt; " {word:08X}")?;
        }
    }
    println!(rt)
}

pub fn missing(rt: &HostRuntime, name: &str) -> io::Result<()> {
    println!(rt; "{name} is missing")
}

pub fn counts(rt: &HostRuntime, name: &str, tally: Tally) -> io::Result<()> {
    println!(rt; "{name} {tally}")
}
