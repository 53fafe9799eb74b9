// The bench for C and Rust to link: reading and writing blocks, a tick, a run over a trace and the mirrored pair, on bytes and
// arrays of numbers; the elementary functions, and the air's density. include/bench.h says it for callers.
#![tactic(auto)]

ghost use Rattle.std.specs.Prelude.{◌≡◌, ◌≤◌, length};
ghost use Rattle.std.specs.Float.{binary32};
ghost use Rattle.air.specs.Density.{density_at};
ghost use Rattle.airframe_block.specs.Block.{read_airframe_of};
ghost use Rattle.libm.specs.Atan.{atan2_of, asin_of};
ghost use Rattle.libm.specs.Exp.{exp_of};
ghost use Rattle.libm.specs.Log.{ln_of};
ghost use Rattle.libm.specs.Pow.{pow_of};
ghost use Rattle.libm.specs.Sqrt.{sqrt_of};
ghost use Rattle.libm.specs.Trig.{sin_of, cos_of};
ghost use Rattle.arrays.specs.Airframe.{airframe_numbers_count, airframe_in};
ghost use Rattle.arrays.specs.Flight.{state_numbers_count};
ghost use Rattle.flight.specs.Reflection.{reflect_flight};
ghost use Rattle.run.specs.Run as Run;
ghost use Rattle.wing.specs.Tick.{tick_of};
ghost use Rattle.bench_c.specs.Promises as Promises;
ghost use Rattle.bench_c.specs.Library as Library;

use airframe_block::AirframeRead;
use answers::{Answer, Refusal};
use flight::{Flight, Tick};
use run::{Pair, RunResult};
use wing::{Accepted, Report, Tables, TickResult};

#[unsafe(no_mangle)]
pub extern "C" fn bench_sqrtf(x: f32) -> f32
    ensures { result ≡ sqrt_of binary32 x }
{
    libm::sqrtf(x)
}

#[unsafe(no_mangle)]
pub extern "C" fn bench_expf(x: f32) -> f32
    ensures { result ≡ exp_of x }
{
    libm::expf(x)
}

#[unsafe(no_mangle)]
pub extern "C" fn bench_logf(v: f32) -> f32
    ensures { result ≡ ln_of v }
{
    libm::logf(v)
}

#[unsafe(no_mangle)]
pub extern "C" fn bench_powf(v: f32, e: f32) -> f32
    ensures { result ≡ pow_of v e }
{
    libm::powf(v, e)
}

#[unsafe(no_mangle)]
pub extern "C" fn bench_sinf(x: f32) -> f32
    ensures { result ≡ sin_of x }
{
    libm::sinf(x)
}

#[unsafe(no_mangle)]
pub extern "C" fn bench_cosf(x: f32) -> f32
    ensures { result ≡ cos_of x }
{
    libm::cosf(x)
}

#[unsafe(no_mangle)]
pub extern "C" fn bench_asinf(s: f32) -> f32
    ensures { result ≡ asin_of s }
{
    libm::asinf(s)
}

#[unsafe(no_mangle)]
pub extern "C" fn bench_atan2f(y: f32, x: f32) -> f32
    ensures { result ≡ atan2_of y x }
{
    libm::atan2f(y, x)
}

// The air's density at a height in m.
#[unsafe(no_mangle)]
pub extern "C" fn bench_density(height_m: f32) -> f32
    ensures { result ≡ density_at height_m }
{
    air::density(height_m)
}

// The reply where an array is of another length. Replies are numbers here, and lengths are tested call by call, since C is outside.
const WRONG_LENGTH: u64 = 1;

// A reply as one number: the answer's in the low four bits, its place above them.
#[tactic(auto, unfolding(crate::specs::Library::reply_of))]
fn reply(answer: Answer) -> u64
    ensures { result ≡ Library.reply_of answer }
{
    answers::number(answer) as u64 + 16 * answers::place(answer) as u64
}

// Reads an airframe block for its answer and place.
#[unsafe(no_mangle)]
pub extern "C" fn bench_read_airframe(block: &[u8]) -> u64
    ensures { result ≡ Library.reply_of (read_airframe_of block.now).answer }
{
    reply(airframe_block::read_airframe(block).answer)
}

// Reads an airframe block into an array, for many ticks; a refused block gives the zero airframe.
#[tactic(auto, unfolding(crate::specs::Library::prepare))]
#[unsafe(no_mangle)]
pub extern "C" fn bench_prepare(block: &[u8], airframe: &mut [f32]) -> u64
    ensures { let o = Library.prepare block.now airframe.old in
        (result ≡ o.reply) × (airframe.new ≡ o.numbers) }
{
    if airframe.len() != arrays::AIRFRAME_NUMBERS {
        return WRONG_LENGTH;
    }
    let read = airframe_block::read_airframe(block);
    arrays::put_airframe(airframe, read.airframe);
    reply(read.answer)
}

// Reads a state block into an array, with thrust scales of 1 and lift rotors at 0 where the block has none; a refused block gives
// the zero state.
#[tactic(auto, unfolding(crate::specs::Library::read_state))]
#[unsafe(no_mangle)]
pub extern "C" fn bench_read_state(block: &[u8], state: &mut [f32]) -> u64
    ensures { let o = Library.read_state block.now state.old in
        (result ≡ o.reply) × (state.new ≡ o.numbers) }
{
    if state.len() != arrays::STATE_NUMBERS {
        return WRONG_LENGTH;
    }
    let read = state_block::read_state(block);
    arrays::put_flight(state, read.flight);
    reply(read.answer)
}

// Writes a state's array into a block of 180 bytes.
#[tactic(auto, unfolding(crate::specs::Library::write_state))]
#[unsafe(no_mangle)]
pub extern "C" fn bench_write_state(state: &[f32], block: &mut [u8]) -> u64
    ensures { let o = Library.write_state state.now block.old in
        (result ≡ o.reply) × (block.new ≡ o.block) }
{
    if state.len() != arrays::STATE_NUMBERS {
        return WRONG_LENGTH;
    }
    let answer = state_block::write_state(block, arrays::flight_in(state));
    reply(answer)
}

// Reads a tick block into an array; a refused block gives a tick of zeros.
#[tactic(auto, unfolding(crate::specs::Library::read_tick))]
#[unsafe(no_mangle)]
pub extern "C" fn bench_read_tick(block: &[u8], tick: &mut [f32]) -> u64
    ensures { let o = Library.read_tick block.now tick.old in
        (result ≡ o.reply) × (tick.new ≡ o.numbers) }
{
    if tick.len() != arrays::TICK_NUMBERS {
        return WRONG_LENGTH;
    }
    let read = trace::read_tick_block(block);
    arrays::put_tick(tick, read.tick);
    reply(read.answer)
}

// Writes a tick's array into a block of 80 bytes.
#[tactic(auto, unfolding(crate::specs::Library::write_tick))]
#[unsafe(no_mangle)]
pub extern "C" fn bench_write_tick(tick: &[f32], block: &mut [u8]) -> u64
    ensures { let o = Library.write_tick tick.now block.old in
        (result ≡ o.reply) × (block.new ≡ o.block) }
{
    if tick.len() != arrays::TICK_NUMBERS {
        return WRONG_LENGTH;
    }
    let answer = trace::write_tick(block, arrays::tick_in(tick));
    reply(answer)
}

// Whether a tick's arrays have their lengths.
#[tactic(auto, unfolding(crate::specs::Library::tick_lengths))]
fn arrays_fit(state: usize, tick: usize, report: usize) -> bool
    ensures { result ≡ Library.tick_lengths state tick report }
{
    state == arrays::STATE_NUMBERS
        && tick == arrays::TICK_NUMBERS
        && report == arrays::REPORT_NUMBERS
}

// The tick of an airframe that was read.
fn ticked_by(read: AirframeRead, f: Flight, t: Tick) -> TickResult
    ensures { result ≡ Library.ticked_by read f t }
{
    match read.answer {
        Ok(()) => lent_tick::tick_by_reference(read.airframe, f, t),
        Err(_) => wing::refused(read.answer, f),
    }
}

// The tick of an airframe in its array, which is tested where it stands, and read after the lag factors are made.
fn ticked_prepared(airframe: &[f32], f: Flight, t: Tick) -> TickResult
    requires { airframe_numbers_count ≤ length airframe.now }
    ensures { result ≡ tick_of (airframe_in airframe.now) f t }
{
    match arrays::refused_place(airframe) {
        Some(place) => wing::refused(Err(Refusal::NumberOutOfRange(place)), f),
        None => {
            let tables = Tables::new();
            let constants = arrays::lag_constants_in(airframe);
            let lags = wing::lag_factors_from(constants, t.step_s, &tables.powers);
            let a = arrays::airframe_in(airframe);
            wing::tick_accepted(Accepted { airframe: a }, f, t, lags, &tables)
        }
    }
}

// Alpha, beta and thrust into their array.
#[tactic(auto, using(crate::proofs::Lengths::set_three), unfolding(crate::specs::Library::report_numbers))]
fn put_report(array: &mut [f32], r: Report)
    requires { length array.old ≡ Library.report_numbers_count }
    ensures { array.new ≡ Library.report_numbers r }
{
    array[0] = r.alpha_rad;
    array[1] = r.beta_rad;
    array[2] = r.thrust_n;
}

// The state that a tick or a run hands back into its array, which a refusal leaves as found.
#[tactic(auto, unfolding(crate::specs::Promises::state_after))]
fn store_if_accepted(state: &mut [f32], answer: Answer, flight: Flight)
    requires { length state.old ≡ state_numbers_count }
    ensures { state.new ≡ Promises.state_after state.old answer flight }
{
    if answer.is_ok() {
        arrays::put_flight(state, flight);
    }
}

// What a tick gave, into the caller's arrays.
#[tactic(auto, using(crate::proofs::After::of_tick))]
fn handed_back(done: TickResult, state: &mut [f32], report: &mut [f32]) -> u64
    requires state_length { length state.old ≡ state_numbers_count }
    requires report_length { length report.old ≡ Library.report_numbers_count }
    ensures { let o = Library.tested state.old done in
        (result ≡ o.reply) × (state.new ≡ o.state) × (report.new ≡ o.report) }
{
    let said = done.report;
    store_if_accepted(state, said.answer, done.flight);
    put_report(report, said);
    reply(said.answer)
}

// One tick of the state in its array, with the airframe as its block. Refused, it reports zeros and does not write the state.
#[tactic(auto, using(crate::proofs::Lengths::arrays_fit), unfolding(crate::specs::Library::tick))]
#[unsafe(no_mangle)]
pub extern "C" fn bench_tick(
    airframe: &[u8],
    state: &mut [f32],
    tick: &[f32],
    report: &mut [f32],
) -> u64
    ensures { let o = Library.tick airframe.now state.old tick.now report.old in
        (result ≡ o.reply) × (state.new ≡ o.state) × (report.new ≡ o.report) }
{
    if arrays_fit(state.len(), tick.len(), report.len()) {
        let f = arrays::flight_in(state);
        let t = arrays::tick_in(tick);
        let done = ticked_by(airframe_block::read_airframe(airframe), f, t);
        return handed_back(done, state, report);
    }
    WRONG_LENGTH
}

// The same with the airframe prepared: its array of numbers, tested at each tick like any other.
#[tactic(auto, using(crate::proofs::Lengths::arrays_fit), unfolding(crate::specs::Library::tick_prepared))]
#[unsafe(no_mangle)]
pub extern "C" fn bench_tick_prepared(
    airframe: &[f32],
    state: &mut [f32],
    tick: &[f32],
    report: &mut [f32],
) -> u64
    ensures { let o = Library.tick_prepared airframe.now state.old tick.now report.old in
        (result ≡ o.reply) × (state.new ≡ o.state) × (report.new ≡ o.report) }
{
    if airframe.len() == arrays::AIRFRAME_NUMBERS
        && arrays_fit(state.len(), tick.len(), report.len())
    {
        let f = arrays::flight_in(state);
        let t = arrays::tick_in(tick);
        let done = ticked_prepared(airframe, f, t);
        return handed_back(done, state, report);
    }
    WRONG_LENGTH
}

// The run of an airframe that was read.
#[tactic(auto, unfolding(crate::specs::Library::run_result_by))]
fn run_by(read: AirframeRead, f: Flight, trace: &[u8]) -> RunResult
    ensures { result ≡ Library.run_result_by read f trace.now }
{
    if trace::is_whole(trace) {
        if read.answer.is_ok() {
            return run::run(read.airframe, f, trace);
        }
        return run::ended(read.answer, f, 0);
    }
    run::ended(Err(Refusal::WrongLength), f, 0)
}

// A run that is refused, and its reflection.
fn ended_pair(answer: Answer, f: Flight) -> Pair
    ensures first_value { result.first ≡ Run.ended answer f 0 }
    ensures second_value { result.second ≡ Run.ended answer (reflect_flight f) 0 }
{
    let first = run::ended(answer, f, 0);
    let second = run::ended(answer, f.reflected(), 0);
    Pair { first, second }
}

// The run of an airframe that was read, and its reflection.
fn pair_by(read: AirframeRead, f: Flight, trace: &[u8]) -> Pair
    ensures { Promises.PairBy read f trace.now result }
{
    if trace::is_whole(trace) {
        if read.answer.is_ok() {
            return run::mirrored_pair(read.airframe, f, trace);
        }
        return ended_pair(read.answer, f);
    }
    ended_pair(Err(Refusal::WrongLength), f)
}

// Flies the trace from the state in its array, and counts the accepted ticks: a refused run leaves the state and counts none.
#[tactic(auto, unfolding(crate::specs::Library::run))]
#[unsafe(no_mangle)]
pub extern "C" fn bench_run(
    airframe: &[u8],
    state: &mut [f32],
    trace: &[u8],
    accepted: &mut u64,
) -> u64
    ensures { let o = Library.run airframe.now state.old trace.now in
        (result ≡ o.reply) × (state.new ≡ o.state) × (accepted.new ≡ o.accepted) }
{
    if state.len() == arrays::STATE_NUMBERS {
        let f = arrays::flight_in(state);
        let done = run_by(airframe_block::read_airframe(airframe), f, trace);
        store_if_accepted(state, done.answer, done.flight);
        *accepted = done.accepted;
        return reply(done.answer);
    }
    *accepted = 0;
    WRONG_LENGTH
}

// Whether both arrays of a pair hold a state.
#[tactic(auto, unfolding(crate::specs::Library::pair_lengths))]
fn pair_fits(state: usize, reflected: usize) -> bool
    ensures { result ≡ Library.pair_lengths state reflected }
{
    state == arrays::STATE_NUMBERS && reflected == arrays::STATE_NUMBERS
}

// Flies the trace from the state in its array and its reflection from the reflected state, and counts the accepted ticks of both.
// The end states go into both arrays; a refused run leaves them. Where it is done, what it leaves mirrors (demand 3).
#[tactic(auto, using(crate::proofs::After::of_run, crate::proofs::Lengths::pair_fits), unfolding(crate::specs::Library::mirrored_pair))]
#[unsafe(no_mangle)]
pub extern "C" fn bench_mirrored_pair(
    airframe: &[u8],
    state: &mut [f32],
    reflected: &mut [f32],
    trace: &[u8],
    accepted: &mut u64,
    accepted_reflected: &mut u64,
) -> u64
    ensures fact { let o =
        Library.mirrored_pair airframe.now state.old reflected.old trace.now in
        (result ≡ o.reply) × (state.new ≡ o.state) × (reflected.new ≡ o.reflected)
        × (accepted.new ≡ o.accepted) × (accepted_reflected.new ≡ o.accepted_reflected) }
    ensures pair_mirrors { result ≡ 0 → Library.PairMirrors airframe.now state.old state.new
        reflected.new accepted.new accepted_reflected.new }
{
    if pair_fits(state.len(), reflected.len()) {
        let f = arrays::flight_in(state);
        let pair = pair_by(airframe_block::read_airframe(airframe), f, trace);
        let first = pair.first;
        let second = pair.second;
        store_if_accepted(state, first.answer, first.flight);
        store_if_accepted(reflected, second.answer, second.flight);
        *accepted = first.accepted;
        *accepted_reflected = second.accepted;
        return reply(first.answer);
    }
    *accepted = 0;
    *accepted_reflected = 0;
    WRONG_LENGTH
}
