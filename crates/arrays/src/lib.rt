// A state, a tick and an airframe as arrays of numbers, as a caller who links the library holds them: the numbers of the state block
// and of the tick block in their order, and an airframe that was read, prepared for many ticks.
#![tactic(auto)]

ghost use Rattle.std.specs.Prelude.{◌≡◌, ◌+◌, ◌<◌, ◌≤◌, length};
ghost use Rattle.airframe.specs.Acceptance.{lift_torques_outside, refused_place};
ghost use Rattle.airframe.specs.Promises.{lag_constants_of};
ghost use Rattle.airframe.specs.Numbers.{numbers_count, numbers_of};
ghost use Rattle.ordered.specs.Ordered.{unless_zero};
ghost use Rattle.mixers.specs.Slots.{at, flag_at};
ghost use Rattle.arrays.specs.Flight as FlightArray;
ghost use Rattle.arrays.specs.Airframe as AirframeArray;

use airframe::{Airframe, LIFT_FIRST, LagConstants, NUMBERS};
use body::Body;
use fixed_wing::ThrustFalloff;
use flight::{Flight, Tick};
use motors::{MotorGroup, MotorLayout};
use std::array;
use vector::{Quaternion, Vec3};

// How many numbers a state, a tick and a report have.
pub const STATE_NUMBERS: usize = state_block::STATE_BYTES / block_parts::NUMBER_BYTES;

pub const TICK_NUMBERS: usize = trace::TICK_BYTES / block_parts::NUMBER_BYTES;

pub const REPORT_NUMBERS: usize = 3;

// At which number of its array each part of a state and of a tick begins; a state's position and a tick's step begin it. A caller in C
// lays the numbers out so, and the parts are therefore found by index.
const VELOCITY_AT: usize = state_block::VELOCITY_AT / block_parts::NUMBER_BYTES;

const ATTITUDE_AT: usize = state_block::ATTITUDE_AT / block_parts::NUMBER_BYTES;

const RATES_AT: usize = state_block::RATES_AT / block_parts::NUMBER_BYTES;

const MOTORS_AT: usize = state_block::MOTORS_AT / block_parts::NUMBER_BYTES;

const SERVOS_AT: usize = state_block::SERVOS_AT / block_parts::NUMBER_BYTES;

const SCALES_AT: usize = state_block::SCALES_AT / block_parts::NUMBER_BYTES;

const LIFT_AT: usize = state_block::LIFT_AT / block_parts::NUMBER_BYTES;

const WIND_AT: usize = trace::WIND_AT / block_parts::NUMBER_BYTES;

const MOTOR_COMMANDS_AT: usize = trace::MOTOR_COMMANDS_AT / block_parts::NUMBER_BYTES;

const SERVO_COMMANDS_AT: usize = trace::SERVO_COMMANDS_AT / block_parts::NUMBER_BYTES;

// Of an airframe: its numbers by place up to 48, and then at which number the falloff's kind, the wash's flag, the motors' marks,
// their torques and the surfaces' weights begin. What a later airframe has besides comes after them: the lift rotors' numbers by
// place, their flag, marks and torques (02, 5).
const KIND_AT: usize = airframe::WASH_FIRST + airframe::WASH_COUNT;

const WASH_AT: usize = KIND_AT + 1;

const USED_AT: usize = WASH_AT + 1;

const TORQUES_AT: usize = USED_AT + 8;

const WEIGHTS_AT: usize = TORQUES_AT + 3 * 8;

const LIFT_NUMBERS_AT: usize = WEIGHTS_AT + 3 * 8;

const LIFT_CONSTANT_AT: usize = LIFT_NUMBERS_AT + (airframe::LIFT_TIME_CONSTANT - LIFT_FIRST);

const LIFT_PRESENT_AT: usize = LIFT_NUMBERS_AT + airframe::LIFT_COUNT;

const LIFT_USED_AT: usize = LIFT_PRESENT_AT + 1;

const LIFT_TORQUES_AT: usize = LIFT_USED_AT + 8;

pub const AIRFRAME_NUMBERS: usize = LIFT_TORQUES_AT + 3 * 8;

// The vector whose three numbers stand at `at`.
fn vec_in(xs: &[f32], at: usize) -> Vec3
    requires { at + 3 ≤ length xs.now }
    ensures { result ≡ FlightArray.vec_in xs.now at }
{
    Vec3 {
        x: xs[at],
        y: xs[at + 1],
        z: xs[at + 2],
    }
}

// The attitude whose numbers w, i, j, k stand at `at`.
fn quat_in(xs: &[f32], at: usize) -> Quaternion
    requires { at + 4 ≤ length xs.now }
    ensures { result ≡ FlightArray.quat_in xs.now at }
{
    Quaternion {
        w: xs[at],
        i: xs[at + 1],
        j: xs[at + 2],
        k: xs[at + 3],
    }
}

// The 8 slots' numbers that stand at `at`.
fn slots_in(xs: &[f32], at: usize) -> [f32; 8]
    requires { at + 8 ≤ length xs.now }
    ensures { result ≡ FlightArray.slots_in xs.now at }
{
    array::from_fn(|k| xs[at + k])
}

// The state of an array. These functions take a slice that may be longer: an array type would ask more of who lends it.
pub fn flight_in(xs: &[f32]) -> Flight
    requires { FlightArray.state_numbers_count ≤ length xs.now }
    ensures { result ≡ FlightArray.flight_in xs.now }
{
    let position_ned_m = vec_in(xs, 0);
    let velocity_ned_mps = vec_in(xs, VELOCITY_AT);
    let attitude = quat_in(xs, ATTITUDE_AT);
    let angular_velocity_radps = vec_in(xs, RATES_AT);
    let motors = slots_in(xs, MOTORS_AT);
    let servos = slots_in(xs, SERVOS_AT);
    let thrust_scale = slots_in(xs, SCALES_AT);
    let lift_motors = slots_in(xs, LIFT_AT);
    let body = Body {
        position_ned_m,
        velocity_ned_mps,
        attitude,
        angular_velocity_radps,
    };
    Flight::of(body, motors, servos, thrust_scale, lift_motors)
}

// The tick of an array.
pub fn tick_in(xs: &[f32]) -> Tick
    requires { FlightArray.tick_numbers_count ≤ length xs.now }
    ensures { result ≡ FlightArray.tick_in xs.now }
{
    let wind_ned_mps = vec_in(xs, WIND_AT);
    let motors = slots_in(xs, MOTOR_COMMANDS_AT);
    let servos = slots_in(xs, SERVO_COMMANDS_AT);
    Tick {
        step_s: xs[0],
        wind_ned_mps,
        motors,
        servos,
    }
}

// A state's numbers in the state block's order.
fn flight_numbers(f: Flight) -> [f32; STATE_NUMBERS]
    ensures { result ≡ FlightArray.flight_numbers f }
{
    let m = f.motors;
    let s = f.servos;
    let c = f.thrust_scale;
    let l = f.lift_motors;
    [
        f.north_m,
        f.east_m,
        f.down_m,
        f.north_mps,
        f.east_mps,
        f.down_mps,
        f.w,
        f.i,
        f.j,
        f.k,
        f.p_radps,
        f.q_radps,
        f.r_radps,
        m[0],
        m[1],
        m[2],
        m[3],
        m[4],
        m[5],
        m[6],
        m[7],
        s[0],
        s[1],
        s[2],
        s[3],
        s[4],
        s[5],
        s[6],
        s[7],
        c[0],
        c[1],
        c[2],
        c[3],
        c[4],
        c[5],
        c[6],
        c[7],
        l[0],
        l[1],
        l[2],
        l[3],
        l[4],
        l[5],
        l[6],
        l[7],
    ]
}

// A tick's numbers in the tick block's order.
fn tick_numbers(t: Tick) -> [f32; TICK_NUMBERS]
    ensures { result ≡ FlightArray.tick_numbers t }
{
    let w = t.wind_ned_mps;
    let m = t.motors;
    let s = t.servos;
    [
        t.step_s, w.x, w.y, w.z, m[0], m[1], m[2], m[3], m[4], m[5], m[6], m[7], s[0], s[1], s[2],
        s[3], s[4], s[5], s[6], s[7],
    ]
}

// The state's numbers into an array of as many.
pub fn put_flight(xs: &mut [f32], f: Flight)
    requires { length xs.old ≡ FlightArray.state_numbers_count }
    ensures { xs.new ≡ FlightArray.flight_numbers f }
{
    xs.copy_from_slice(&flight_numbers(f));
}

// The tick's numbers into an array of as many.
pub fn put_tick(xs: &mut [f32], t: Tick)
    requires { length xs.old ≡ FlightArray.tick_numbers_count }
    ensures { xs.new ≡ FlightArray.tick_numbers t }
{
    xs.copy_from_slice(&tick_numbers(t));
}

// 0 for a zero of either sign, else 1.
fn kind_of(x: f32) -> u8
    ensures { result ≡ AirframeArray.kind_of x }
{
    if x == 0.0 { 0 } else { 1 }
}

fn is_set(x: f32) -> bool
    ensures { result ≡ AirframeArray.is_set x }
{
    !(x == 0.0)
}

// The numbers by place, the lift rotors' last.
fn numbers_in(xs: &[f32]) -> [f32; NUMBERS]
    requires { AirframeArray.airframe_numbers_count ≤ length xs.now }
    ensures { result ≡ AirframeArray.numbers_in xs.now }
{
    let mut numbers = [0.0; NUMBERS];
    numbers[..LIFT_FIRST].copy_from_slice(&xs[..LIFT_FIRST]);
    numbers[LIFT_FIRST..].copy_from_slice(&xs[LIFT_NUMBERS_AT..LIFT_PRESENT_AT]);
    numbers
}

// The marks of a group that stand at `at`.
fn flags_in(xs: &[f32], at: usize) -> [bool; 8]
    requires { at + 8 ≤ length xs.now }
    ensures { result ≡ AirframeArray.flags_in xs.now at }
{
    array::from_fn(|k| is_set(xs[at + k]))
}

// The 8 slots' vectors that stand at `at`.
fn vecs_in(xs: &[f32], at: usize) -> [Vec3; 8]
    requires { at + 24 ≤ length xs.now }
    ensures { result ≡ AirframeArray.vecs_in xs.now at }
{
    array::from_fn(|k| vec_in(xs, at + 3 * k))
}

// The group of motors whose marks stand at `used_at`, with their torques behind them.
fn group_in(xs: &[f32], layout: MotorLayout, time_constant_s: f32, used_at: usize) -> MotorGroup
    requires { used_at + 32 ≤ length xs.now }
    ensures { result ≡ AirframeArray.group_in xs.now layout time_constant_s used_at }
{
    let used = flags_in(xs, used_at);
    let torque_per_thrust_m = vecs_in(xs, used_at + 8);
    MotorGroup {
        layout,
        time_constant_s,
        used,
        torque_per_thrust_m,
    }
}

// The airframe of an array of numbers.
pub fn airframe_in(xs: &[f32]) -> Airframe
    requires { AirframeArray.airframe_numbers_count ≤ length xs.now }
    ensures { result ≡ AirframeArray.airframe_in xs.now }
{
    let numbers = numbers_in(xs);
    let kind = kind_of(xs[KIND_AT]);
    let wash_present = is_set(xs[WASH_AT]);
    let lift_present = is_set(xs[LIFT_PRESENT_AT]);
    let layout = airframe::motor_layout_of(numbers);
    let motors = group_in(xs, layout, numbers[airframe::MOTOR_TIME_CONSTANT], USED_AT);
    let weights = vecs_in(xs, WEIGHTS_AT);
    let lift_layout = airframe::lift_layout_of(numbers);
    let rotors = group_in(
        xs,
        lift_layout,
        numbers[airframe::LIFT_TIME_CONSTANT],
        LIFT_USED_AT,
    );
    Airframe::from_numbers(
        numbers,
        kind,
        wash_present,
        lift_present,
        motors,
        weights,
        rotors,
    )
}

// The lowest place out of range of the airframe of an array, by the array's own numbers; none where it is accepted.
pub fn refused_place(xs: &[f32]) -> Option<u32>
    requires { AirframeArray.airframe_numbers_count ≤ length xs.now }
    ensures { result ≡ unless_zero (refused_place (AirframeArray.airframe_in xs.now)) }
{
    let numbers = numbers_in(xs);
    let falloff = airframe::falloff_of(kind_of(xs[KIND_AT]), xs[airframe::FALLOFF]);
    let wash_present = is_set(xs[WASH_AT]);
    let torques = vecs_in(xs, TORQUES_AT);
    let weights = vecs_in(xs, WEIGHTS_AT);
    let lift_present = is_set(xs[LIFT_PRESENT_AT]);
    let lift_torque = lift_torques_outside(xs, lift_present);
    airframe::first_refused(
        &numbers,
        falloff,
        wash_present,
        true,
        torques,
        weights,
        lift_present,
        lift_torque,
    )
}

// What is out of range among the lift rotors' torques, which are read only where they are tested. Flag and torques, as in `airframe`.
fn lift_torques_outside(xs: &[f32], present: bool) -> Option<u32>
    requires { AirframeArray.airframe_numbers_count ≤ length xs.now }
    ensures { result ≡ unless_zero (lift_torques_outside present (AirframeArray.vecs_in xs.now AirframeArray.lift_torques_at)) }
{
    if present {
        return airframe::lift_torques_outside(present, vecs_in(xs, LIFT_TORQUES_AT));
    }
    None
}

// The constants of the lags of the airframe of an array.
pub fn lag_constants_in(xs: &[f32]) -> LagConstants
    requires { AirframeArray.airframe_numbers_count ≤ length xs.now }
    ensures { result ≡ lag_constants_of (AirframeArray.airframe_in xs.now) }
{
    let lift_present = is_set(xs[LIFT_PRESENT_AT]);
    LagConstants {
        motor_s: xs[airframe::MOTOR_TIME_CONSTANT],
        servo_s: xs[airframe::SERVO_TIME_CONSTANT],
        lift_present,
        lift_s: xs[LIFT_CONSTANT_AT],
    }
}

fn flag_number(b: bool) -> f32
    ensures { result ≡ AirframeArray.flag_number b }
{
    if b { 1.0 } else { 0.0 }
}

fn kind_number(falloff: ThrustFalloff) -> f32
    ensures { result ≡ AirframeArray.kind_number falloff }
{
    match falloff {
        ThrustFalloff::Linear(_) => 0.0,
        ThrustFalloff::PitchSpeed(_) => 1.0,
    }
}

// Number k of the 8 slots' vectors.
fn vecs_number(vecs: [Vec3; 8], k: usize) -> f32
    requires { k < 24 }
    ensures { result ≡ AirframeArray.vecs_number vecs k }
{
    let v = vecs[k / 3];
    let axis = k % 3;
    if axis == 0 {
        return v.x;
    }
    if axis == 1 {
        return v.y;
    }
    v.z
}

// Number k of those by place.
fn number_in(a: Airframe, k: usize) -> f32
    requires { k < numbers_count }
    ensures { result ≡ at (numbers_of a) k }
{
    let numbers = a.numbers();
    numbers[k]
}

// Whether motor k of a group is used, as a number.
fn used_number(group: MotorGroup, k: usize) -> f32
    requires { k < 8 }
    ensures { result ≡ AirframeArray.flag_number (flag_at group.used k) }
{
    let used = group.used;
    flag_number(used[k])
}

// Number k of the airframe's array, of those of the lift rotors.
fn lift_number(a: Airframe, k: usize) -> f32
    requires lower_bound { AirframeArray.lift_numbers_at ≤ k }
    requires upper_bound { k < AirframeArray.airframe_numbers_count }
    ensures { result ≡ AirframeArray.lift_number a k }
{
    let lift = a.lift;
    let group = lift.motors;
    let torques = group.torque_per_thrust_m;
    if k < LIFT_PRESENT_AT {
        return number_in(a, LIFT_FIRST + (k - LIFT_NUMBERS_AT));
    }
    if k < LIFT_USED_AT {
        return flag_number(a.lift_present);
    }
    if k < LIFT_TORQUES_AT {
        return used_number(group, k - LIFT_USED_AT);
    }
    vecs_number(torques, k - LIFT_TORQUES_AT)
}

// Number k of the airframe's array.
fn airframe_number(a: Airframe, k: usize) -> f32
    requires { k < AirframeArray.airframe_numbers_count }
    ensures { result ≡ AirframeArray.airframe_number a k }
{
    let m = a.model;
    let falloff = m.thrust_falloff;
    let group = a.motors;
    let torques = group.torque_per_thrust_m;
    let weights = a.weights;
    if k < KIND_AT {
        return number_in(a, k);
    }
    if k < WASH_AT {
        return kind_number(falloff);
    }
    if k < USED_AT {
        return flag_number(a.wash_present);
    }
    if k < TORQUES_AT {
        return used_number(group, k - USED_AT);
    }
    if k < WEIGHTS_AT {
        return vecs_number(torques, k - TORQUES_AT);
    }
    if k < LIFT_NUMBERS_AT {
        return vecs_number(weights, k - WEIGHTS_AT);
    }
    lift_number(a, k)
}

// The airframe's numbers into an array of their count.
pub fn put_airframe(xs: &mut [f32], a: Airframe)
    requires { length xs.old ≡ AirframeArray.airframe_numbers_count }
    ensures { xs.new ≡ AirframeArray.airframe_numbers a }
{
    for (k, x) in xs.iter_mut().enumerate() {
        *x = airframe_number(a, k);
    }
}
