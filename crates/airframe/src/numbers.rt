// An airframe's numbers by place, and its fields: each from the other (01, "Airframe numbers by place"; 02, 5).
ghost use Rattle.std.specs.Prelude.{◌≡◌};
ghost use Rattle.airframe.specs.FromNumbers as FromNumbers;
ghost use Rattle.airframe.specs.Numbers as Numbers;

use crate::Airframe;
use fixed_wing::{AeroCoefficients, FixedWingModel, ThrustFalloff};
use motors::{MotorGroup, MotorLayout};
use quadplane_model::LiftRotors;
use tailsitter_model::PropWash;
use vector::Vec3;

// The numbers stand in segments: those that every airframe has, the wash's and the lift rotors'.
const BASE_COUNT: usize = 41;

pub const WASH_FIRST: usize = BASE_COUNT;

pub const WASH_COUNT: usize = 7;

pub const LIFT_FIRST: usize = WASH_FIRST + WASH_COUNT;

pub const LIFT_COUNT: usize = 6;

pub const NUMBERS: usize = LIFT_FIRST + LIFT_COUNT;

// The index of each number. Its place is one more, and from the lift rotors' numbers on, which begin at place 52, four more.
const MASS: usize = 0;

const INERTIA_ROLL: usize = 1;

const INERTIA_PITCH: usize = 2;

const INERTIA_YAW: usize = 3;

const WING_AREA: usize = 4;

const SPAN: usize = 5;

const CHORD: usize = 6;

const C_LIFT_0: usize = 7;

const C_LIFT_ALPHA: usize = 8;

const ALPHA_STALL: usize = 9;

const STALL_SHARPNESS: usize = 10;

const C_DRAG_0: usize = 11;

const OSWALD: usize = 12;

const C_SIDE_BETA: usize = 13;

const C_SIDE_RUDDER: usize = 14;

const C_ROLL_BETA: usize = 15;

const C_ROLL_P: usize = 16;

const C_ROLL_R: usize = 17;

const C_ROLL_AILERON: usize = 18;

const C_ROLL_RUDDER: usize = 19;

const C_PITCH_0: usize = 20;

const C_PITCH_ALPHA: usize = 21;

const POST_STALL_PITCH_SHARE: usize = 22;

const C_PITCH_Q: usize = 23;

const C_PITCH_ELEVATOR: usize = 24;

const SURFACE_STALL_SHARE: usize = 25;

const C_YAW_BETA: usize = 26;

const C_YAW_P: usize = 27;

const C_YAW_R: usize = 28;

const C_YAW_RUDDER: usize = 29;

const MAX_AILERON: usize = 30;

const MAX_ELEVATOR: usize = 31;

const MAX_RUDDER: usize = 32;

pub const SERVO_TIME_CONSTANT: usize = 33;

const MAX_THRUST: usize = 34;

const THRUST_EXPONENT: usize = 35;

pub const FALLOFF: usize = 36;

const THRUST_LINE: usize = 37;

pub const MOTOR_TIME_CONSTANT: usize = 38;

const MOMENT_ARM: usize = 39;

const YAW_TORQUE: usize = 40;

const DISC_AREA: usize = WASH_FIRST;

const SURFACE_FRACTION: usize = WASH_FIRST + 1;

const ROLL_FRACTION: usize = WASH_FIRST + 2;

const PITCH_MOMENT: usize = WASH_FIRST + 3;

const STALL_PITCH_MOMENT: usize = WASH_FIRST + 4;

const SINK_LOSS: usize = WASH_FIRST + 5;

const DAMPING_FRACTION: usize = WASH_FIRST + 6;

const LIFT_MAX_THRUST: usize = LIFT_FIRST;

const LIFT_THRUST_EXPONENT: usize = LIFT_FIRST + 1;

const LIFT_MOMENT_ARM: usize = LIFT_FIRST + 2;

const LIFT_YAW_TORQUE: usize = LIFT_FIRST + 3;

pub const LIFT_TIME_CONSTANT: usize = LIFT_FIRST + 4;

const LIFT_DRAG: usize = LIFT_FIRST + 5;

// Of a segment: whether it is there, the index of its first number, how many numbers it has, and the place of the first. No `Option`: a
// segment that is not there has its indices all the same. That these are in range is no ghost field, which the definitions that make
// segments (specs/Numbers) would have to prove.
#[derive(Clone, Copy)]
pub struct Segment {
    pub present: bool,
    pub first: usize,
    pub count: usize,
    pub place: u32,
}

// The three segments differ in indices and places, which each says once.
impl Segment {
    pub fn base() -> Self
        ensures { result ≡ Numbers.base_segment }
    {
        Segment {
            present: true,
            first: 0,
            count: BASE_COUNT,
            place: 1,
        }
    }

    pub fn wash(present: bool) -> Self
        ensures { result ≡ Numbers.wash_segment present }
    {
        Segment {
            present,
            first: WASH_FIRST,
            count: WASH_COUNT,
            place: 42,
        }
    }

    pub fn lift(present: bool) -> Self
        ensures { result ≡ Numbers.lift_segment present }
    {
        Segment {
            present,
            first: LIFT_FIRST,
            count: LIFT_COUNT,
            place: 52,
        }
    }
}

impl Airframe {
    // The numbers, segment by segment, those of an absent segment included.
    pub fn numbers(self) -> [f32; NUMBERS]
        ensures { result ≡ Numbers.numbers_of self }
    {
        let m = self.model;
        let i = m.inertia_kgm2;
        let c = m.aero;
        let d = m.max_deflection_rad;
        let w = self.wash;
        let group = self.motors;
        let layout = group.layout;
        let lift = self.lift;
        let rotors = lift.motors;
        let rotor = rotors.layout;
        let falloff = m.thrust_falloff;
        let lost = falloff_number(falloff);
        [
            m.mass_kg,
            i.x,
            i.y,
            i.z,
            m.wing_area_m2,
            m.span_m,
            m.chord_m,
            c.c_lift_0,
            c.c_lift_alpha,
            c.alpha_stall_rad,
            c.stall_sharpness,
            c.c_drag_0,
            c.oswald,
            c.c_side_beta,
            c.c_side_rudder,
            c.c_roll_beta,
            c.c_roll_p,
            c.c_roll_r,
            c.c_roll_aileron,
            c.c_roll_rudder,
            c.c_pitch_0,
            c.c_pitch_alpha,
            c.post_stall_pitch_share,
            c.c_pitch_q,
            c.c_pitch_elevator,
            c.surface_stall_share,
            c.c_yaw_beta,
            c.c_yaw_p,
            c.c_yaw_r,
            c.c_yaw_rudder,
            d.x,
            d.y,
            d.z,
            m.servo_time_constant_s,
            layout.max_thrust_n,
            layout.thrust_exponent,
            lost,
            m.thrust_line_below_cg_m,
            group.time_constant_s,
            layout.moment_arm_m,
            layout.yaw_torque_per_thrust_m,
            w.disc_area_m2,
            w.surface_fraction,
            w.roll_fraction,
            w.pitch_moment,
            w.stall_pitch_moment,
            w.sink_loss,
            w.damping_fraction,
            rotor.max_thrust_n,
            rotor.thrust_exponent,
            rotor.moment_arm_m,
            rotor.yaw_torque_per_thrust_m,
            rotors.time_constant_s,
            lift.drag_per_thrust_n_per_mps,
        ]
    }

    // The airframe of its numbers, the falloff's kind, which segments are there, and what its rows fill: the two groups of motors,
    // made with these numbers, and the surfaces' weights. Flags, no `Option`: the numbers of a segment that is not there are kept. The
    // kind may be any number: `falloff_of` takes each.
    pub fn from_numbers(
        xs: [f32; NUMBERS],
        kind: u8,
        wash_present: bool,
        lift_present: bool,
        motors: MotorGroup,
        weights: [Vec3; 8],
        rotors: MotorGroup,
    ) -> Self
        ensures { result ≡ FromNumbers.airframe_of xs kind wash_present lift_present motors weights rotors }
    {
        let model = model_of(xs, kind);
        let wash = wash_from(xs);
        let lift = LiftRotors {
            motors: rotors,
            drag_per_thrust_n_per_mps: xs[LIFT_DRAG],
        };
        Airframe {
            model,
            wash_present,
            wash,
            motors,
            weights,
            lift_present,
            lift,
        }
    }

    // The zero airframe, which a refused read gives.
    pub fn zero() -> Self
        ensures { result ≡ FromNumbers.zero_airframe }
    {
        let xs = [0.0; NUMBERS];
        let motors = MotorGroup::empty(motor_layout_of(xs), 0.0);
        let rotors = MotorGroup::empty(lift_layout_of(xs), 0.0);
        let weights = [Vec3::zeros(); 8];
        Airframe::from_numbers(xs, 0, false, false, motors, weights, rotors)
    }
}

// The number of either kind of falloff.
fn falloff_number(falloff: ThrustFalloff) -> f32
    ensures { result ≡ Numbers.falloff_number falloff }
{
    match falloff {
        ThrustFalloff::Linear(n_per_mps) => n_per_mps,
        ThrustFalloff::PitchSpeed(full_mps) => full_mps,
    }
}

// The falloff of its kind and its number. The kind is a number and no enum: any number is taken (specs/FromNumbers: `falloff_of`).
pub fn falloff_of(kind: u8, x: f32) -> ThrustFalloff
    ensures { result ≡ FromNumbers.falloff_of kind x }
{
    if kind == 0 {
        return ThrustFalloff::Linear(x);
    }
    ThrustFalloff::PitchSpeed(x)
}

fn coefficients_of(xs: [f32; NUMBERS]) -> AeroCoefficients
    ensures { result ≡ FromNumbers.coefficients_of xs }
{
    AeroCoefficients {
        c_lift_0: xs[C_LIFT_0],
        c_lift_alpha: xs[C_LIFT_ALPHA],
        alpha_stall_rad: xs[ALPHA_STALL],
        stall_sharpness: xs[STALL_SHARPNESS],
        c_drag_0: xs[C_DRAG_0],
        oswald: xs[OSWALD],
        c_side_beta: xs[C_SIDE_BETA],
        c_side_rudder: xs[C_SIDE_RUDDER],
        c_roll_beta: xs[C_ROLL_BETA],
        c_roll_p: xs[C_ROLL_P],
        c_roll_r: xs[C_ROLL_R],
        c_roll_aileron: xs[C_ROLL_AILERON],
        c_roll_rudder: xs[C_ROLL_RUDDER],
        c_pitch_0: xs[C_PITCH_0],
        c_pitch_alpha: xs[C_PITCH_ALPHA],
        post_stall_pitch_share: xs[POST_STALL_PITCH_SHARE],
        c_pitch_q: xs[C_PITCH_Q],
        c_pitch_elevator: xs[C_PITCH_ELEVATOR],
        surface_stall_share: xs[SURFACE_STALL_SHARE],
        c_yaw_beta: xs[C_YAW_BETA],
        c_yaw_p: xs[C_YAW_P],
        c_yaw_r: xs[C_YAW_R],
        c_yaw_rudder: xs[C_YAW_RUDDER],
    }
}

// The model of the numbers by place and the falloff's kind, which may be any number, as in `falloff_of`.
fn model_of(xs: [f32; NUMBERS], kind: u8) -> FixedWingModel
    ensures { result ≡ FromNumbers.model_of xs kind }
{
    let aero = coefficients_of(xs);
    let inertia_kgm2 = Vec3::new(xs[INERTIA_ROLL], xs[INERTIA_PITCH], xs[INERTIA_YAW]);
    let max_deflection_rad = Vec3::new(xs[MAX_AILERON], xs[MAX_ELEVATOR], xs[MAX_RUDDER]);
    let thrust_falloff = falloff_of(kind, xs[FALLOFF]);
    FixedWingModel {
        mass_kg: xs[MASS],
        inertia_kgm2,
        wing_area_m2: xs[WING_AREA],
        span_m: xs[SPAN],
        chord_m: xs[CHORD],
        aero,
        max_deflection_rad,
        servo_time_constant_s: xs[SERVO_TIME_CONSTANT],
        thrust_falloff,
        thrust_line_below_cg_m: xs[THRUST_LINE],
    }
}

// The wash of the numbers by place.
fn wash_from(xs: [f32; NUMBERS]) -> PropWash
    ensures { result ≡ FromNumbers.wash_from xs }
{
    PropWash {
        disc_area_m2: xs[DISC_AREA],
        surface_fraction: xs[SURFACE_FRACTION],
        roll_fraction: xs[ROLL_FRACTION],
        damping_fraction: xs[DAMPING_FRACTION],
        sink_loss: xs[SINK_LOSS],
        pitch_moment: xs[PITCH_MOMENT],
        stall_pitch_moment: xs[STALL_PITCH_MOMENT],
    }
}

// The layout of the motors along body x. It and the lift rotors' name their own indices.
pub fn motor_layout_of(xs: [f32; NUMBERS]) -> MotorLayout
    ensures { result ≡ FromNumbers.motor_layout_of xs }
{
    MotorLayout {
        moment_arm_m: xs[MOMENT_ARM],
        yaw_torque_per_thrust_m: xs[YAW_TORQUE],
        max_thrust_n: xs[MAX_THRUST],
        thrust_exponent: xs[THRUST_EXPONENT],
    }
}

// The layout of the lift rotors.
pub fn lift_layout_of(xs: [f32; NUMBERS]) -> MotorLayout
    ensures { result ≡ FromNumbers.lift_layout_of xs }
{
    MotorLayout {
        moment_arm_m: xs[LIFT_MOMENT_ARM],
        yaw_torque_per_thrust_m: xs[LIFT_YAW_TORQUE],
        max_thrust_n: xs[LIFT_MAX_THRUST],
        thrust_exponent: xs[LIFT_THRUST_EXPONENT],
    }
}
