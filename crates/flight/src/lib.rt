// The flight state, body and running values in one record, and what a tick is given.
#![tactic(auto)]

ghost use Rattle.std.specs.Prelude.{IfSome, ◌≡◌, ◌≤◌};
ghost use Rattle.ordered.specs.Ordered.{all_pass, unless_zero};
ghost use Rattle.flight.specs.Envelope as Envelope;
ghost use Rattle.flight.specs.Reflection as Reflection;
ghost use Rattle.flight.specs.State as State;

use body::Body;
use vector::{Quaternion, Vec3};

// The body's 13 numbers on NED world axes and FRD body axes, the commands that motors and servos run at, and how strong each motor is.
#[derive(Clone, Copy)]
pub struct Flight {
    // Position.
    pub north_m: f32,
    pub east_m: f32,
    pub down_m: f32,
    // Velocity over the ground.
    pub north_mps: f32,
    pub east_mps: f32,
    pub down_mps: f32,
    // The attitude, which rotates from body axes to NED axes.
    pub w: f32,
    pub i: f32,
    pub j: f32,
    pub k: f32,
    // The rates about body x, y and z.
    pub p_radps: f32,
    pub q_radps: f32,
    pub r_radps: f32,
    pub motors: [f32; 8],
    pub servos: [f32; 8],
    // By motor slot: 1 as built, 0 gives no thrust (02, 2). No tick changes them.
    pub thrust_scale: [f32; 8],
    // What the lift rotors run at (02, 5); without lift numbers no tick changes them.
    pub lift_motors: [f32; 8],
}

// One tick's step, wind (NED) and commands.
#[derive(Clone, Copy)]
pub struct Tick {
    pub step_s: f32,
    pub wind_ned_mps: Vec3,
    pub motors: [f32; 8],
    pub servos: [f32; 8],
}

// The envelope's limits (01, "Envelope"): sizes of position, velocity and rates, N of the attitude, running values of motors and lift
// rotors with the thrust scales, and running values of servos.
const MAX_POSITION_M: f32 = 1000000.0;

const MAX_VELOCITY_MPS: f32 = 1000.0;

const MAX_RATE_RADPS: f32 = 100.0;

const MIN_NORM_SQUARED: f32 = 0.9;

const MAX_NORM_SQUARED: f32 = 1.1;

const MIN_RUNNING: f32 = 0.0;

const MAX_RUNNING: f32 = 1.0;

const MIN_SERVO: f32 = -1.0;

const MAX_SERVO: f32 = 1.0;

impl Flight {
    // A state of zeros.
    pub fn zero() -> Self
        ensures { result ≡ Envelope.zero_flight }
    {
        let motors = [0.0; 8];
        let servos = [0.0; 8];
        let thrust_scale = [0.0; 8];
        let lift_motors = [0.0; 8];
        Flight {
            north_m: 0.0,
            east_m: 0.0,
            down_m: 0.0,
            north_mps: 0.0,
            east_mps: 0.0,
            down_mps: 0.0,
            w: 0.0,
            i: 0.0,
            j: 0.0,
            k: 0.0,
            p_radps: 0.0,
            q_radps: 0.0,
            r_radps: 0.0,
            motors,
            servos,
            thrust_scale,
            lift_motors,
        }
    }

    // The state of a body, the values that motors, servos and lift rotors run at, and how strong each motor is.
    pub fn of(
        body: Body,
        motors: [f32; 8],
        servos: [f32; 8],
        thrust_scale: [f32; 8],
        lift_motors: [f32; 8],
    ) -> Self
        ensures { result ≡ State.flight_of body motors servos thrust_scale lift_motors }
    {
        let position = body.position_ned_m;
        let velocity = body.velocity_ned_mps;
        let attitude = body.attitude;
        let rates = body.angular_velocity_radps;
        Flight {
            north_m: position.x,
            east_m: position.y,
            down_m: position.z,
            north_mps: velocity.x,
            east_mps: velocity.y,
            down_mps: velocity.z,
            w: attitude.w,
            i: attitude.i,
            j: attitude.j,
            k: attitude.k,
            p_radps: rates.x,
            q_radps: rates.y,
            r_radps: rates.z,
            motors,
            servos,
            thrust_scale,
            lift_motors,
        }
    }

    // The body of the state.
    pub fn body(self) -> Body
        ensures { result ≡ State.body_of self }
    {
        let position_ned_m = Vec3 {
            x: self.north_m,
            y: self.east_m,
            z: self.down_m,
        };
        let velocity_ned_mps = Vec3 {
            x: self.north_mps,
            y: self.east_mps,
            z: self.down_mps,
        };
        let attitude = Quaternion {
            w: self.w,
            i: self.i,
            j: self.j,
            k: self.k,
        };
        let angular_velocity_radps = Vec3 {
            x: self.p_radps,
            y: self.q_radps,
            z: self.r_radps,
        };
        Body {
            position_ned_m,
            velocity_ned_mps,
            attitude,
            angular_velocity_radps,
        }
    }

    // The first test of the envelope that fails, by its number (01, "Envelope"); none where the state is inside.
    pub fn outside(self) -> Option<u32>
        ensures { result ≡ unless_zero (Envelope.outside_of self) }
    {
        let body = self.body();
        let position = vec_outside(body.position_ned_m, MAX_POSITION_M);
        let velocity = ordered::after(3, vec_outside(body.velocity_ned_mps, MAX_VELOCITY_MPS));
        let attitude = ordered::after(6, attitude_outside(body.attitude));
        let rates = ordered::after(7, vec_outside(body.angular_velocity_radps, MAX_RATE_RADPS));
        let motors = ordered::after(10, slots_outside(self.motors, MIN_RUNNING, MAX_RUNNING));
        let servos = ordered::after(18, slots_outside(self.servos, MIN_SERVO, MAX_SERVO));
        let scales = ordered::after(
            26,
            slots_outside(self.thrust_scale, MIN_RUNNING, MAX_RUNNING),
        );
        let lift = ordered::after(
            34,
            slots_outside(self.lift_motors, MIN_RUNNING, MAX_RUNNING),
        );
        position
            .or(velocity)
            .or(attitude)
            .or(rates)
            .or(motors)
            .or(servos)
            .or(scales)
            .or(lift)
    }
}

// 1 where the attitude's N lies outside 0.9..1.1.
fn attitude_outside(attitude: Quaternion) -> Option<u32>
    ensures value { result ≡ unless_zero (Envelope.attitude_outside attitude) }
    ensures upper_bound { IfSome result (λ n. n ≤ 1) }
{
    if float::inside(attitude.norm_squared(), MIN_NORM_SQUARED, MAX_NORM_SQUARED) {
        return None;
    }
    Some(1)
}

// Which component is larger in size than `limit`, counted from 1.
fn vec_outside(v: Vec3, limit: f32) -> Option<u32>
    ensures value { result ≡ unless_zero (Envelope.vec_outside limit v) }
    ensures upper_bound { IfSome result (λ n. n ≤ 3) }
{
    if float::inside(v.x, -limit, limit) {
        if float::inside(v.y, -limit, limit) {
            if float::inside(v.z, -limit, limit) {
                return None;
            }
            return Some(3);
        }
        return Some(2);
    }
    Some(1)
}

// Whether each slot's value lies within low..high: no early exit, so that the tests overlap.
fn slots_inside(values: [f32; 8], low: f32, high: f32) -> bool
    ensures { result ≡ all_pass (Envelope.slot_inside low high values) 8 }
{
    let mut ok = true;
    for value in values {
        ok &= float::inside(value, low, high);
    }
    ok
}

// Which slot's value lies outside low..high, counted from 1.
fn slots_outside(values: [f32; 8], low: f32, high: f32) -> Option<u32>
    ensures value { result ≡ unless_zero (Envelope.slots_outside low high values) }
    ensures upper_bound { IfSome result (λ n. n ≤ 8) }
{
    if slots_inside(values, low, high) {
        return None;
    }
    for (i, value) in values.iter().enumerate() {
        if !float::inside(*value, low, high) {
            return Some(i as u32 + 1);
        }
    }
    None
}

impl Flight {
    // Whether the state is inside the envelope.
    pub fn is_inside(self) -> bool
        ensures { result ≡ Envelope.is_inside self }
    {
        let body = self.body();
        let running = self.motors;
        let positions = self.servos;
        let thrust_scale = self.thrust_scale;
        let lift_running = self.lift_motors;
        let position = body.position_ned_m.is_inside(MAX_POSITION_M);
        let velocity = body.velocity_ned_mps.is_inside(MAX_VELOCITY_MPS);
        let attitude = float::inside(
            body.attitude.norm_squared(),
            MIN_NORM_SQUARED,
            MAX_NORM_SQUARED,
        );
        let rates = body.angular_velocity_radps.is_inside(MAX_RATE_RADPS);
        let motors = slots_inside(running, MIN_RUNNING, MAX_RUNNING);
        let servos = slots_inside(positions, MIN_SERVO, MAX_SERVO);
        let scales = slots_inside(thrust_scale, MIN_RUNNING, MAX_RUNNING);
        let lift = slots_inside(lift_running, MIN_RUNNING, MAX_RUNNING);
        position & velocity & attitude & rates & motors & servos & scales & lift
    }
}

impl Flight {
    // The reflection of left and right: motors, servos and lift rotors run as they do, and are as strong.
    pub fn reflected(self) -> Self
        ensures { result ≡ Reflection.reflect_flight self }
    {
        let body = self.body();
        let motors = self.motors;
        let servos = self.servos;
        let thrust_scale = self.thrust_scale;
        let lift_motors = self.lift_motors;
        Flight::of(body.reflected(), motors, servos, thrust_scale, lift_motors)
    }
}

impl Tick {
    // The reflection of left and right: wind east negated.
    pub fn reflected(self) -> Self
        ensures { result ≡ Reflection.reflect_tick self }
    {
        let wind = self.wind_ned_mps;
        let motors = self.motors;
        let servos = self.servos;
        Tick {
            step_s: self.step_s,
            wind_ned_mps: wind.reflected(),
            motors,
            servos,
        }
    }
}
