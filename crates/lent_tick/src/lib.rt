// The lent tick: `wing::tick`, by value, on a flight record that the caller lends by `&mut`.
#![tactic(auto)]

ghost use Rattle.std.specs.Prelude.{◌≡◌};
ghost use Rattle.wing.specs.Tick.{tick_of};

use airframe::Airframe;
use flight::{Flight, Tick};
use wing::{Report, TickResult};

// One tick of the record behind `flight`: the report is the by-value tick's, and what lies behind the reference afterwards is the
// state it hands back; after a refusal that is what was there.
pub fn tick_in_place(a: Airframe, flight: &mut Flight, t: Tick) -> Report
    ensures { (result ≡ (tick_of a flight.old t).report)
        × (flight.new ≡ (tick_of a flight.old t).flight) }
{
    let s = *flight;
    let done = wing::tick(a, s, t);
    *flight = done.flight;
    done.report
}

// The same by value, through a record that is lent: what a covered program calls to run `tick_in_place`.
pub fn tick_by_reference(a: Airframe, s: Flight, t: Tick) -> TickResult
    ensures { result ≡ tick_of a s t }
{
    let mut flight = s;
    let report = tick_in_place(a, &mut flight, t);
    TickResult { report, flight }
}
