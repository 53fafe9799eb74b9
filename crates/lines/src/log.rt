// What a program keeps of the ticks that it flies, and the lines that it prints of them.
ghost use Rattle.std.specs.Prelude.{◌≡◌, ◌+◌, ◌*◌, ◌≤◌, ℕ, List, [], ◌∷◌, ◌++◌, length};
ghost use Rattle.airframe.specs.declared.Airframe.{Airframe};
ghost use Rattle.flight.specs.declared.Flight.{Flight};
ghost use Rattle.flight.specs.declared.Tick.{Tick};
ghost use Rattle.lines.specs.Page.{line_bytes, page_bytes};
ghost use Rattle.trace.specs.Trace.{tick_count, ticks_of};

use crate::page::Page;
use airframe::Airframe;
use flight::{Flight, Tick};

// A flight alone, or with its reflection beside it.
pub trait Log: Copy + Drop {
    // Whether a log is what is kept before the first tick of a flight.
    ghost starts: { Flight → Self → Type 0 };

    // Whether the ticks lead an airframe from one log to another.
    ghost leads: { Airframe → Self → List Tick → Self → Type 0 };

    // The lines of some ticks, after those that the log has.
    ghost lines: { Airframe → Self → List Tick → List ℕ };

    // What follows the lines of the last n bytes read.
    ghost ends: { Self → ℕ → List ℕ };

    // How many bytes the lines of a tick have at most.
    ghost room: { ℕ };

    // Before the first tick.
    fn start(f: Flight) -> Self
        ensures { starts f result };

    // Flies one tick, and puts its lines on the page.
    fn fly(self, a: Airframe, t: Tick, page: &mut Page) -> Self
        requires { length page.old + room ≤ page_bytes }
        ensures log { leads a self (t ∷ []) result }
        ensures page { page.new ≡ page.old ++ lines a self (t ∷ []) }
        ensures within { length page.new ≤ length page.old + room };

    // Puts what follows the lines of the last n bytes read.
    fn put_end(self, n: usize, page: &mut Page)
        requires { length page.old ≤ 200 * (2 * line_bytes) }
        ensures { page.new ≡ page.old ++ ends self n };

    // No tick changes nothing, and has no line.
    ghost none: { (a : Airframe) (p : Self) → leads a p [] p };

    ghost no_lines: { (a : Airframe) (p : Self) → lines a p [] ≡ [] };

    // Ticks flown in two parts are flown, and have the lines of both.
    ghost more: { (a : Airframe) (p q r : Self) (ts us : List Tick) → leads a p ts q → leads a q us r → leads a p (ts ++ us) r };

    ghost more_lines: { (a : Airframe) (p q : Self) (ts us : List Tick) → leads a p ts q → lines a p (ts ++ us) ≡ lines a p ts ++ lines a q us };

    // The lines of 200 ticks, and what follows them, go on a page.
    ghost fits: { room ≤ 2 * line_bytes };
}

// Flies the trace's whole ticks: those of a program's input as it comes, or of a stored flight. Their lines go on the page.
pub fn fly_ticks<L: Log>(a: Airframe, p: L, trace: &[u8], page: &mut Page) -> L
    requires { length page.old + L.room * tick_count trace.now ≤ page_bytes }
    ensures log { L.leads a p (ticks_of trace.now) result }
    ensures page { page.new ≡ page.old ++ L.lines a p (ticks_of trace.now) }
    ensures within { length page.new ≤ length page.old + L.room * tick_count trace.now }
{
    let mut log = p;
    let count = trace::tick_count(trace);
    for i in 0..count {
        let t = trace::tick_at(trace, i);
        log = log.fly(a, t, page);
    }
    log
}
