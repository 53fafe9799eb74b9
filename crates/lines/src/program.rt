// What the programs fly and mirror do: all ticks of their input, a page at a time.
ghost use Rattle.std.specs.Prelude.{◌≡◌, ◌*◌, ◌≤◌, ◌++◌, length};
ghost use Rattle.lines.specs.Opening.{Ready};
ghost use Rattle.lines.specs.Page.{line_bytes, page_bytes};
ghost use Rattle.trace.specs.Tick.{tick_bytes};
ghost use Rattle.trace.specs.Trace.{ticks_of};

use crate::errors::Trouble;
use crate::input::{Asked, Input};
use crate::log::Log;
use crate::opening::TICKS_BYTES;
use crate::page::{PAGE_BYTES, Page};
use crate::{errors, input, log, opening};
use airframe::Airframe;
use flight::Flight;
use std::io::{IsTerminal, Read};

// Flies the trace's whole ticks, and puts their lines on an empty page.
fn fly_page<L: Log>(a: Airframe, p: L, trace: &[u8], page: &mut Page) -> L
    requires { length trace.now ≤ 200 * tick_bytes }
    ensures log { L.leads a p (ticks_of trace.now) result }
    ensures page { page.new ≡ L.lines a p (ticks_of trace.now) }
    ensures within { length page.new ≤ 200 * (2 * line_bytes) }
{
    page.clear();
    log::fly_ticks(a, p, trace, page)
}

// Writes the page, which may be made of what was read before a read failed.
fn print<R>(rt: &HostRuntime, input: &Input<R>, page: &Page) -> Result<(), Trouble> {
    rt.stdout()
        .write_all(page.text())
        .map_err(Trouble::Unwritten)?;
    match input.error {
        Some(error) => Err(Trouble::Unread(error)),
        None => Ok(()),
    }
}

// Flies all ticks of the input from f, where airframe and state are accepted.
fn fly_input<L: Log, R: Read>(
    rt: &HostRuntime,
    a: Airframe,
    f: Flight,
    input: &mut Input<R>,
) -> Result<(), Trouble>
    requires { Ready a f }
{
    let mut buf = [0; TICKS_BYTES];
    let mut page = Page::new();
    let mut log = L::start(f);
    for _ in 0..u64::MAX {
        let trace = opening::read_ticks(input, &mut buf);
        log = fly_page(a, log, trace, &mut page);
        log.put_end(trace.len(), &mut page);
        print(rt, input, &page)?;
        if trace.len() < TICKS_BYTES {
            break;
        }
    }
    Ok(())
}

// Flies the input, where its airframe and its state are accepted; else it writes the refusal.
fn fly<L: Log, R: Read>(rt: &HostRuntime, input: &mut Input<R>) -> Result<(), Trouble> {
    match opening::open(input) {
        Ok(opened) => fly_input::<L, R>(rt, opened.airframe, opened.flight, input),
        Err(refusal) => {
            let mut page = Page::new();
            page.put_refusal(Err(refusal));
            print(rt, input, &page)
        }
    }
}

// Flies the file of that name.
fn fly_named<L: Log>(rt: &HostRuntime, name: &[u8]) -> Result<(), Trouble> {
    let file = input::open_named(rt, name).map_err(Trouble::Unopened)?;
    let mut input = Input::new(file);
    fly::<L, _>(rt, &mut input)
}

// Flies standard input.
fn fly_standard_input<L: Log>(rt: &HostRuntime) -> Result<(), Trouble> {
    let mut input = Input::new(rt.stdin());
    fly::<L, _>(rt, &mut input)
}

// Flies the file or standard input that the program is asked to read, where its airframe and its state are accepted. What it cannot
// read or write it says on standard error.
pub fn fly_file<L: Log>(rt: &HostRuntime, program: &[u8]) {
    let asked = input::asked_for(input::word_count(rt), rt.stdin().is_terminal());
    match asked {
        Asked::File => {
            let mut buf = [0; PAGE_BYTES];
            let name = input::first_argument(rt, &mut buf);
            if let Err(trouble) = fly_named::<L>(rt, name) {
                errors::report(rt, program, name, trouble);
            }
        }
        Asked::StandardInput => {
            if let Err(trouble) = fly_standard_input::<L>(rt) {
                errors::report(rt, program, b"standard input", trouble);
            }
        }
        Asked::Nothing => errors::usage(rt, program),
    }
}
