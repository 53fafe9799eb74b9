// Ticks in bytes: the tick block (01, "Blocks"), and a trace, one tick block after the other.
#![tactic(auto)]

ghost use Rattle.std.specs.Prelude.{◌≡◌, ◌+◌, ◌<◌, ◌≤◌, length};
ghost use Rattle.block_parts.specs.Parts.{write_answer};
ghost use Rattle.trace.specs.Tick as Block;
ghost use Rattle.trace.specs.Trace as Trace;

use answers::{Answer, Refusal};
use block_parts::{NUMBER_BYTES, SLOTS_BYTES, VEC_BYTES};
use flight::Tick;
use vector::Vec3;

// A tick block, whose layout is fixed for C: at which byte each part begins, the step at 0.
pub const WIND_AT: usize = NUMBER_BYTES;

pub const MOTOR_COMMANDS_AT: usize = WIND_AT + VEC_BYTES;

pub const SERVO_COMMANDS_AT: usize = MOTOR_COMMANDS_AT + SLOTS_BYTES;

pub const TICK_BYTES: usize = SERVO_COMMANDS_AT + SLOTS_BYTES;

// What reading a tick block gives: the reply, and the tick, all zeros where it is refused. No `Result`, which would have no tick of
// zeros then (specs/Tick: `read_tick_of`).
#[derive(Clone, Copy)]
pub struct TickRead {
    pub answer: Answer,
    pub tick: Tick,
}

// The tick whose block stands at `at`.
fn read_tick(s: &[u8], at: usize) -> Tick
    requires { at + Block.tick_bytes ≤ length s.now }
    ensures { result ≡ Block.tick_from s.now at }
{
    let step_s = float::read(s, at);
    let wind_ned_mps = block_parts::read_vec(s, at + WIND_AT);
    let motors = block_parts::read_floats(s, at + MOTOR_COMMANDS_AT);
    let servos = block_parts::read_floats(s, at + SERVO_COMMANDS_AT);
    Tick {
        step_s,
        wind_ned_mps,
        motors,
        servos,
    }
}

fn zero_tick() -> Tick
    ensures { result ≡ Block.zero_tick }
{
    let wind_ned_mps = Vec3::zeros();
    let motors = [0.0; 8];
    let servos = [0.0; 8];
    Tick {
        step_s: 0.0,
        wind_ned_mps,
        motors,
        servos,
    }
}

// The tick block `s`, refused where it does not have a tick's bytes. The numbers are not tested: each tick does that.
pub fn read_tick_block(s: &[u8]) -> TickRead
    ensures { result ≡ Block.read_tick_of s.now }
{
    let n = s.len();
    if n == TICK_BYTES {
        let tick = read_tick(s, 0);
        return TickRead {
            answer: Ok(()),
            tick,
        };
    }
    let tick = zero_tick();
    TickRead {
        answer: Err(Refusal::WrongLength),
        tick,
    }
}

// The tick's bytes into `s` at `at`.
fn write_tick_at(s: &mut [u8], at: usize, t: Tick)
    requires { at + Block.tick_bytes ≤ length s.old }
    ensures { s.new ≡ Block.put_tick s.old at t }
{
    let motors = t.motors;
    let servos = t.servos;
    float::write(s, at, t.step_s);
    block_parts::write_vec(s, at + WIND_AT, t.wind_ned_mps);
    block_parts::write_floats(s, at + MOTOR_COMMANDS_AT, motors);
    block_parts::write_floats(s, at + SERVO_COMMANDS_AT, servos);
}

// The tick's bytes into `s`, which must have as many as a tick block, 80: else the bytes stay as found. The numbers are not tested.
pub fn write_tick(s: &mut [u8], t: Tick) -> Answer
    ensures s_after { s.new ≡ Block.written_tick s.old t }
    ensures value { result ≡ write_answer Block.tick_bytes s.old }
{
    let lent = s.len();
    if lent != TICK_BYTES {
        return Err(Refusal::WrongLength);
    }
    write_tick_at(s, 0, t);
    Ok(())
}

// Whether the trace is whole ticks.
pub fn is_whole(trace: &[u8]) -> bool
    ensures { result ≡ Trace.is_whole trace.now }
{
    trace.len() % TICK_BYTES == 0
}

// How many whole ticks the trace has.
pub fn tick_count(trace: &[u8]) -> usize
    ensures { result ≡ Trace.tick_count trace.now }
{
    trace.len() / TICK_BYTES
}

// The trace's tick i, the first being 0.
pub fn tick_at(trace: &[u8], i: usize) -> Tick
    requires { i < Trace.tick_count trace.now }
    ensures { result ≡ Trace.tick_at trace.now i }
{
    read_tick(trace, TICK_BYTES * i)
}
