// The run over a trace of ticks, and the mirrored pair of runs.
#![tactic(auto)]

ghost use Rattle.std.specs.Prelude.{◌≡◌, ◌≤◌, true};
ghost use Rattle.airframe.specs.Acceptance.{refused_place};
ghost use Rattle.flight.specs.Envelope.{is_inside};
ghost use Rattle.flight.specs.Reflection.{reflect_tick};
ghost use Rattle.flight.specs.declared.Tick.{Tick};
ghost use Rattle.run.specs.Promises as Promises;
ghost use Rattle.run.specs.Run as Run;
ghost use Rattle.run.specs.Mirrored as Mirrored;

use airframe::Airframe;
use answers::{Answer, Refusal};
use flight::{Flight, Tick};
use wing::{Accepted, Tables};

// A run's answer, 0 or 1, its end state and how many of its ticks were accepted. No `Result`: a refused run hands back its state and
// counts none (specs/Run: `ended`).
#[derive(Clone, Copy)]
pub struct RunResult {
    pub answer: Answer,
    pub flight: Flight,
    pub accepted: u64,
}

// A run and its reflection.
#[derive(Clone, Copy)]
pub struct Pair {
    pub first: RunResult,
    pub second: RunResult,
}

// Flies the whole trace from `f`; a refused tick does not end the run. A trace that is not whole ticks gets 1, and `f` back.
#[tactic(auto, unfolding(crate::specs::Promises::track_result, crate::specs::Run::run_result_of))]
pub fn run(a: Airframe, f: Flight, trace: &[u8]) -> RunResult
    ensures { result ≡ Run.run_result_of a f trace.now }
{
    run_track::<AsFlown>(a, f, trace)
}

// Flies the trace and, from the reflected state with the reflected airframe, its reflection.
pub fn mirrored_pair(a: Airframe, f: Flight, trace: &[u8]) -> Pair
    ensures { Mirrored.PairPromise a f trace.now result }
{
    let first = run_track::<AsFlown>(a, f, trace);
    let second = run_track::<Reflected>(a.reflected(), f.reflected(), trace);
    Pair { first, second }
}

// A track of a trace's ticks: how a run takes each one.
trait Track {
    ghost tick: { Tick → Tick };

    fn take(t: Tick) -> Tick
        ensures { result ≡ tick t };
}

// The ticks as they stand in the trace.
struct AsFlown;

impl Track for AsFlown {
    ghost tick = { λ t. t };

    fn take(t: Tick) -> Tick {
        t
    }
}

// The ticks with left and right exchanged.
struct Reflected;

impl Track for Reflected {
    ghost tick = { reflect_tick };

    fn take(t: Tick) -> Tick {
        t.reflected()
    }
}

// The run over a track of the trace's ticks.
fn run_track<T: Track>(a: Airframe, f: Flight, trace: &[u8]) -> RunResult
    ensures { result ≡ Promises.track_result T.tick a f trace.now }
{
    if trace::is_whole(trace) {
        if let Ok(accepted) = Accepted::of(a) {
            if f.is_inside() {
                return fly_all::<T>(accepted, f, trace);
            }
            return ended(Ok(()), f, 0);
        }
        return ended(Ok(()), f, 0);
    }
    ended(Err(Refusal::WrongLength), f, 0)
}

// What a run hands back.
#[tactic(auto, unfolding(crate::specs::Run::ended))]
pub fn ended(answer: Answer, flight: Flight, accepted: u64) -> RunResult
    ensures { result ≡ Run.ended answer flight accepted }
{
    RunResult {
        answer,
        flight,
        accepted,
    }
}

// The ticks one after the other, of an airframe and a state that are accepted: neither is tested again, since each state that is
// kept was tested as the next one.
fn fly_all<T: Track>(a: Accepted, f: Flight, trace: &[u8]) -> RunResult
    requires { is_inside f ≡ true }
    ensures { result ≡ Promises.track_flown T.tick a.airframe f trace.now }
{
    let count = trace::tick_count(trace);
    let mut flight = f;
    let tables = Tables::new();
    let mut lags = wing::begin(a.airframe, 0.01, &tables.powers);
    let mut accepted = 0u64;
    for i in 0..count {
        let t = T::take(trace::tick_at(trace, i));
        lags = wing::cached_lag_factors(a.airframe, lags, t.step_s, &tables.powers);
        let done = wing::tick_inside(a, flight, t, lags, &tables);
        let report = done.report;
        let answer = report.answer;
        accepted += one_if_done(answer);
        flight = done.flight;
    }
    ended(Ok(()), flight, accepted)
}

#[tactic(auto, unfolding(crate::specs::Run::one_if_done))]
fn one_if_done(answer: Answer) -> u64
    ensures value { result ≡ Run.one_if_done answer }
    ensures upper_bound { result ≤ 1 }
{
    match answer {
        Ok(()) => 1,
        Err(_) => 0,
    }
}
