// The state block (01, "Blocks"): how a flight state stands in bytes.
#![tactic(auto)]

ghost use Rattle.std.specs.Prelude.{◌≡◌, ◌+◌, ◌≤◌, length};
ghost use Rattle.block_parts.specs.Parts.{write_answer};
ghost use Rattle.state_block.specs.Layout as Layout;

use answers::{Answer, Refusal};
use block_parts::{NUMBER_BYTES, SLOTS_BYTES, VEC_BYTES};
use body::Body;
use flight::Flight;
use vector::Quaternion;

// How many bytes an attitude has.
const ATTITUDE_BYTES: usize = 4 * NUMBER_BYTES;

// A state block, whose layout is fixed for C: at which byte each part begins, the position at 0.
pub const VELOCITY_AT: usize = VEC_BYTES;

pub const ATTITUDE_AT: usize = VELOCITY_AT + VEC_BYTES;

pub const RATES_AT: usize = ATTITUDE_AT + ATTITUDE_BYTES;

pub const MOTORS_AT: usize = RATES_AT + VEC_BYTES;

pub const SERVOS_AT: usize = MOTORS_AT + SLOTS_BYTES;

// Where the thrust scales begin; a block from before there were any ends here (02, 2).
pub const SCALES_AT: usize = SERVOS_AT + SLOTS_BYTES;

// Where the lift rotors' running values begin; a block from before there were any ends here (02, 5).
pub const LIFT_AT: usize = SCALES_AT + SLOTS_BYTES;

pub const STATE_BYTES: usize = LIFT_AT + SLOTS_BYTES;

// What reading a state block gives: the reply, and the state, all zeros where it is refused. No `Result`, which would have no state of
// zeros then (specs/Layout: `refused_state`).
#[derive(Clone, Copy)]
pub struct StateRead {
    pub answer: Answer,
    pub flight: Flight,
}

// The attitude whose numbers w, i, j, k stand at `at`.
fn read_attitude(s: &[u8], at: usize) -> Quaternion
    requires { at + Layout.attitude_bytes ≤ length s.now }
    ensures { result ≡ Layout.attitude_from s.now at }
{
    let w = float::read(s, at);
    let i = float::read(s, at + NUMBER_BYTES);
    let j = float::read(s, at + 2 * NUMBER_BYTES);
    let k = float::read(s, at + 3 * NUMBER_BYTES);
    Quaternion { w, i, j, k }
}

// The state whose block stands at `at`, with the thrust scales and the lift rotors' values given.
fn read_flight(s: &[u8], at: usize, thrust_scale: [f32; 8], lift_motors: [f32; 8]) -> Flight
    requires { at + Layout.scales_at ≤ length s.now }
    ensures { result ≡ Layout.flight_with thrust_scale lift_motors s.now at }
{
    let position_ned_m = block_parts::read_vec(s, at);
    let velocity_ned_mps = block_parts::read_vec(s, at + VELOCITY_AT);
    let attitude = read_attitude(s, at + ATTITUDE_AT);
    let angular_velocity_radps = block_parts::read_vec(s, at + RATES_AT);
    let motors = block_parts::read_floats(s, at + MOTORS_AT);
    let servos = block_parts::read_floats(s, at + SERVOS_AT);
    let body = Body {
        position_ned_m,
        velocity_ned_mps,
        attitude,
        angular_velocity_radps,
    };
    Flight::of(body, motors, servos, thrust_scale, lift_motors)
}

// A refused state: the reply, and a state of zeros. What reading gives has a record for each block, with names of its own.
fn refused(refusal: Refusal) -> StateRead
    ensures { result ≡ Layout.refused_state refusal }
{
    StateRead {
        answer: Err(refusal),
        flight: Flight::zero(),
    }
}

// The state as read: refused where it is outside the envelope.
fn tested(flight: Flight) -> StateRead
    ensures { result ≡ Layout.tested_state flight }
{
    if flight.outside().is_some() {
        return refused(Refusal::StateOutside);
    }
    StateRead {
        answer: Ok(()),
        flight,
    }
}

// The state block `s`, by its length: refused where no block has that many bytes, or where the state is outside the envelope. A
// block of 148 bytes has no values of lift rotors, which then are 0; one of 116 has no thrust scales either, which then are 1.
pub fn read_state(s: &[u8]) -> StateRead
    ensures { result ≡ Layout.read_state_of s.now }
{
    let n = s.len();
    if n == STATE_BYTES {
        let scales = block_parts::read_floats(s, SCALES_AT);
        let lift = block_parts::read_floats(s, LIFT_AT);
        return tested(read_flight(s, 0, scales, lift));
    }
    if n == LIFT_AT {
        let scales = block_parts::read_floats(s, SCALES_AT);
        return tested(read_flight(s, 0, scales, [0.0; 8]));
    }
    if n == SCALES_AT {
        return tested(read_flight(s, 0, [1.0; 8], [0.0; 8]));
    }
    refused(Refusal::WrongLength)
}

// The state block `s` of all 180 bytes, and of no fewer: what the programs read (02, 5).
pub fn read_full_state(s: &[u8]) -> StateRead
    ensures { result ≡ Layout.read_full_of s.now }
{
    if s.len() == STATE_BYTES {
        return read_state(s);
    }
    refused(Refusal::WrongLength)
}

fn write_attitude(s: &mut [u8], at: usize, q: Quaternion)
    requires { at + Layout.attitude_bytes ≤ length s.old }
    ensures { s.new ≡ Layout.put_attitude s.old at q }
{
    float::write(s, at, q.w);
    float::write(s, at + NUMBER_BYTES, q.i);
    float::write(s, at + 2 * NUMBER_BYTES, q.j);
    float::write(s, at + 3 * NUMBER_BYTES, q.k);
}

fn write_body(s: &mut [u8], at: usize, b: Body)
    requires { at + Layout.motors_at ≤ length s.old }
    ensures { s.new ≡ Layout.put_body s.old at b }
{
    block_parts::write_vec(s, at, b.position_ned_m);
    block_parts::write_vec(s, at + VELOCITY_AT, b.velocity_ned_mps);
    write_attitude(s, at + ATTITUDE_AT, b.attitude);
    block_parts::write_vec(s, at + RATES_AT, b.angular_velocity_radps);
}

fn write_flight(s: &mut [u8], at: usize, f: Flight)
    requires { at + Layout.state_bytes ≤ length s.old }
    ensures { s.new ≡ Layout.put_flight s.old at f }
{
    let motors = f.motors;
    let servos = f.servos;
    let thrust_scale = f.thrust_scale;
    let lift_motors = f.lift_motors;
    write_body(s, at, f.body());
    block_parts::write_floats(s, at + MOTORS_AT, motors);
    block_parts::write_floats(s, at + SERVOS_AT, servos);
    block_parts::write_floats(s, at + SCALES_AT, thrust_scale);
    block_parts::write_floats(s, at + LIFT_AT, lift_motors);
}

// The state's bytes into `s`, which must have as many as a state block, 180: else the bytes stay as found. The numbers are not tested.
// What it shares with `trace::write_tick` is in `block_parts`; what is left names the block's own parts.
pub fn write_state(s: &mut [u8], f: Flight) -> Answer
    ensures s_after { s.new ≡ Layout.written_state s.old f }
    ensures value { result ≡ write_answer Layout.state_bytes s.old }
{
    let lent = s.len();
    if lent != STATE_BYTES {
        return Err(Refusal::WrongLength);
    }
    write_flight(s, 0, f);
    Ok(())
}
