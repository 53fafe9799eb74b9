// The airframe: its numbers under their names, the motors along body x, the surfaces' weights, and with their flags the wash and the
// lift rotors; its acceptance and its reflection.
#![tactic(auto)]

mod numbers;

ghost use Rattle.std.specs.Prelude.{IfSome, ◌<◌, ◌≡◌, ◌+◌, ◌≤◌};
ghost use Rattle.std.specs.Option.{option_or};
ghost use Rattle.airframe.specs.Acceptance as Acceptance;
ghost use Rattle.airframe.specs.Promises as Promises;
ghost use Rattle.airframe.specs.Numbers as Numbers;
ghost use Rattle.airframe.specs.Reflection as Reflection;
ghost use Rattle.ordered.specs.Ordered.{all_pass};
ghost use Rattle.ordered.specs.Ordered.{first_fail, unless_zero};

use fixed_wing::{FixedWingModel, ThrustFalloff};
use motors::MotorGroup;
pub use numbers::{
    FALLOFF, LIFT_COUNT, LIFT_FIRST, LIFT_TIME_CONSTANT, MOTOR_TIME_CONSTANT, NUMBERS,
    SERVO_TIME_CONSTANT, Segment, WASH_COUNT, WASH_FIRST, falloff_of, lift_layout_of,
    motor_layout_of,
};
use quadplane_model::LiftRotors;
use tailsitter_model::PropWash;
use vector::Vec3;

#[derive(Clone, Copy)]
pub struct Airframe {
    pub model: FixedWingModel,
    // Whether there is a wash; where not, `wash` is not looked at. No `Option`: the numbers of a wash that is not there are kept
    // (proofs/RoundTrip: `numbers-again`).
    pub wash_present: bool,
    pub wash: PropWash,
    // The motors along body x.
    pub motors: MotorGroup,
    // Each servo slot's share of the surfaces' deflections.
    pub weights: [Vec3; 8],
    // Whether there are lift numbers (02, 5); where not, `lift` is not looked at, and kept all the same.
    pub lift_present: bool,
    pub lift: LiftRotors,
}

// The constants of the lags: the motors' (place 39), the servos' (34) and, where there are lift numbers, the lift rotors' (56).
// No `Option` of the last: `lag_constants_of` keeps it where there are no lift numbers, too.
#[derive(Clone, Copy)]
pub struct LagConstants {
    pub motor_s: f32,
    pub servo_s: f32,
    pub lift_present: bool,
    pub lift_s: f32,
}

// The least and the largest number of a place.
#[derive(Clone, Copy)]
pub struct Limits(f32, f32);

const LIMITS: [Limits; NUMBERS] = [
    Limits(0.01, 1000.0), // 1 mass_kg
    Limits(0.0001, 1000.0), // 2 inertia_kgm2, roll
    Limits(0.0001, 1000.0), // 3 inertia_kgm2, pitch
    Limits(0.0001, 1000.0), // 4 inertia_kgm2, yaw
    Limits(0.01, 100.0), // 5 wing_area_m2
    Limits(0.1, 100.0), // 6 span_m
    Limits(0.01, 10.0), // 7 chord_m
    Limits(-100.0, 100.0), // 8 c_lift_0
    Limits(-100.0, 100.0), // 9 c_lift_alpha
    Limits(0.0, 1.6), // 10 alpha_stall_rad
    Limits(0.0, 1000.0), // 11 stall_sharpness
    Limits(-100.0, 100.0), // 12 c_drag_0
    Limits(0.1, 2.0), // 13 oswald
    Limits(-100.0, 100.0), // 14 c_side_beta
    Limits(-100.0, 100.0), // 15 c_side_rudder
    Limits(-100.0, 100.0), // 16 c_roll_beta
    Limits(-100.0, 100.0), // 17 c_roll_p
    Limits(-100.0, 100.0), // 18 c_roll_r
    Limits(-100.0, 100.0), // 19 c_roll_aileron
    Limits(-100.0, 100.0), // 20 c_roll_rudder
    Limits(-100.0, 100.0), // 21 c_pitch_0
    Limits(-100.0, 100.0), // 22 c_pitch_alpha
    Limits(0.0, 1.0), // 23 post_stall_pitch_share
    Limits(-100.0, 100.0), // 24 c_pitch_q
    Limits(-100.0, 100.0), // 25 c_pitch_elevator
    Limits(0.0, 1.0), // 26 surface_stall_share
    Limits(-100.0, 100.0), // 27 c_yaw_beta
    Limits(-100.0, 100.0), // 28 c_yaw_p
    Limits(-100.0, 100.0), // 29 c_yaw_r
    Limits(-100.0, 100.0), // 30 c_yaw_rudder
    Limits(-1.6, 1.6), // 31 max_deflection_rad, aileron
    Limits(-1.6, 1.6), // 32 max_deflection_rad, elevator
    Limits(-1.6, 1.6), // 33 max_deflection_rad, rudder
    Limits(0.001, 10.0), // 34 servo_time_constant_s
    Limits(0.01, 10000.0), // 35 max_thrust_n
    Limits(1.0, 3.0), // 36 thrust_exponent
    Limits(0.0, 10000.0), // 37 thrust_falloff, Linear's
    Limits(-10.0, 10.0), // 38 thrust_line_below_cg_m
    Limits(0.001, 10.0), // 39 time_constant_s of the motors
    Limits(0.0, 10.0), // 40 moment_arm_m
    Limits(-10.0, 10.0), // 41 yaw_torque_per_thrust_m
    Limits(0.001, 100.0), // 42 disc_area_m2
    Limits(0.0, 10.0), // 43 surface_fraction
    Limits(0.0, 10.0), // 44 roll_fraction
    Limits(-100.0, 100.0), // 45 pitch_moment
    Limits(-100.0, 100.0), // 46 stall_pitch_moment
    Limits(0.0, 10.0), // 47 sink_loss
    Limits(0.0, 10.0), // 48 damping_fraction
    Limits(0.01, 10000.0), // 52 max_thrust_n of a lift rotor
    Limits(1.0, 3.0), // 53 thrust_exponent of the lift rotors
    Limits(0.0, 10.0), // 54 moment_arm_m of the lift rotors
    Limits(-10.0, 10.0), // 55 yaw_torque_per_thrust_m of the lift rotors
    Limits(0.001, 10.0), // 56 time_constant_s of the lift rotors
    Limits(0.0, 10.0), // 57 drag_per_thrust_n_per_mps
];

impl Airframe {
    // The lowest place whose number is out of range, none where the airframe is accepted. Its rows' factors are not in it: whether
    // they all fit is handed in.
    pub fn lowest_place(self, rows_fit: bool) -> Option<u32>
        ensures { result ≡ unless_zero (Acceptance.lowest_place rows_fit self) }
    {
        let m = self.model;
        let falloff = m.thrust_falloff;
        let group = self.motors;
        let numbers = self.numbers();
        let torques = group.torque_per_thrust_m;
        let weights = self.weights;
        let lift = self.lift;
        let rotors = lift.motors;
        let lift_torques = rotors.torque_per_thrust_m;
        let lift_torque = lift_torques_outside(self.lift_present, lift_torques);
        first_refused(
            &numbers,
            falloff,
            self.wash_present,
            rows_fit,
            torques,
            weights,
            self.lift_present,
            lift_torque,
        )
    }

    // The same of an airframe that is not of a block: it has no rows.
    pub fn refused_place(self) -> Option<u32>
        ensures { result ≡ unless_zero (Acceptance.refused_place self) }
    {
        self.lowest_place(true)
    }

    // The constants of its lags.
    pub fn lag_constants(self) -> LagConstants
        ensures { result ≡ Promises.lag_constants_of self }
    {
        LagConstants {
            motor_s: self.motors.time_constant_s,
            servo_s: self.model.servo_time_constant_s,
            lift_present: self.lift_present,
            lift_s: self.lift.motors.time_constant_s,
        }
    }
}

// The lowest place out of range of an airframe's parts, in the order of their places. `lift_torque` is what `lift_torques_outside` says of
// the lift rotors' torques, which come last. Flags, no `Option`: the numbers of what is not there are handed in all the same.
pub fn first_refused(
    numbers: &[f32; NUMBERS],
    falloff: ThrustFalloff,
    wash_present: bool,
    rows_fit: bool,
    torques: [Vec3; 8],
    weights: [Vec3; 8],
    lift_present: bool,
    lift_torque: Option<u32>,
) -> Option<u32>
    ensures { result ≡ option_or (unless_zero (Acceptance.first_refused numbers.now falloff wash_present rows_fit torques weights lift_present 0))
        lift_torque }
{
    let limits = limits_for(falloff);
    let base = segment_outside(numbers, limits, Segment::base());
    let wash = segment_outside(numbers, limits, Segment::wash(wash_present));
    let rows = row_factors_outside(rows_fit);
    let torque = vectors_outside(torques, 100.0, 50);
    let weight = vectors_outside(weights, 101.0, 51);
    let lift = segment_outside(numbers, limits, Segment::lift(lift_present));
    let parts = base.or(wash).or(rows).or(torque).or(weight).or(lift);
    parts.or(lift_torque)
}

// Without lift numbers the lift rotors' torques are not tested. Flag and torques, no `Option`: the torques are kept all the same.
pub fn lift_torques_outside(present: bool, torques: [Vec3; 8]) -> Option<u32>
    ensures { result ≡ unless_zero (Acceptance.lift_torques_outside present torques) }
{
    if present {
        return vectors_outside(torques, 100.0, 58);
    }
    None
}

fn row_factors_outside(rows_fit: bool) -> Option<u32>
    ensures { result ≡ unless_zero (Acceptance.row_factors_outside rows_fit) }
{
    if rows_fit { None } else { Some(49) }
}

// The limits by place: a PitchSpeed's least number is 0.1.
fn limits_for(falloff: ThrustFalloff) -> [Limits; NUMBERS]
    ensures { result ≡ Acceptance.limits_for falloff }
{
    let mut limits = LIMITS;
    match falloff {
        ThrustFalloff::Linear(_) => limits,
        ThrustFalloff::PitchSpeed(_) => {
            limits[FALLOFF] = Limits(0.1, 10000.0);
            limits
        }
    }
}

// Whether `count` numbers from the index `first` on lie within their limits: no early exit, so that the tests overlap.
fn numbers_inside(
    numbers: &[f32; NUMBERS],
    limits: [Limits; NUMBERS],
    first: usize,
    count: usize,
) -> bool
    requires { first + count ≤ Numbers.numbers_count }
    ensures { result ≡ all_pass (Acceptance.inside_from limits numbers.now first) count }
{
    let mut ok = true;
    for (i, number) in numbers[first..first + count].iter().enumerate() {
        let limit = limits[first + i];
        ok &= float::inside(*number, limit.0, limit.1);
    }
    ok
}

// The first of them outside its limits, counted from 1.
fn first_outside(
    numbers: &[f32; NUMBERS],
    limits: [Limits; NUMBERS],
    first: usize,
    count: usize,
) -> Option<u32>
    requires { first + count ≤ Numbers.numbers_count }
    ensures value { result ≡ unless_zero (first_fail (Acceptance.inside_from limits numbers.now first) 0 count) }
    ensures upper_bound { IfSome result (λ n. n ≤ Numbers.numbers_count) }
{
    if numbers_inside(numbers, limits, first, count) {
        return None;
    }
    for (i, number) in numbers[first..first + count].iter().enumerate() {
        let limit = limits[first + i];
        if !float::inside(*number, limit.0, limit.1) {
            return Some((i + 1) as u32);
        }
    }
    None
}

// The lowest place of a segment whose number is outside its limits; an absent segment has none.
fn segment_outside(numbers: &[f32; NUMBERS], limits: [Limits; NUMBERS], s: Segment) -> Option<u32>
    requires numbers_within { s.first + s.count ≤ Numbers.numbers_count }
    requires place_lower_bound { 1 ≤ s.place }
    requires place_upper_bound { s.place ≤ 1000 }
    ensures { result ≡ unless_zero (Acceptance.segment_outside limits numbers.now s) }
{
    if s.present {
        return ordered::after(
            s.place - 1,
            first_outside(numbers, limits, s.first, s.count),
        );
    }
    None
}

// Whether each slot's vector has components of at most `limit` in size.
fn vectors_inside(vectors: [Vec3; 8], limit: f32) -> bool
    ensures { result ≡ all_pass (Acceptance.slot_vec_inside limit vectors) 8 }
{
    let mut ok = true;
    for vector in &vectors {
        ok &= vector.is_inside(limit);
    }
    ok
}

// `place` where a slot's vector has a component larger in size than `limit`.
fn vectors_outside(vectors: [Vec3; 8], limit: f32, place: u32) -> Option<u32>
    requires { 0 < place }
    ensures { result ≡ unless_zero (Acceptance.vectors_outside limit place vectors) }
{
    if vectors_inside(vectors, limit) {
        return None;
    }
    Some(place)
}

impl Airframe {
    // Left and right exchanged: both groups' torques and the weights are negated in roll and yaw.
    pub fn reflected(mut self) -> Self
        ensures { result ≡ Reflection.reflect_airframe self }
    {
        let motors = self.motors;
        let weights = self.weights;
        let reflected_motors = motors.reflected();
        let reflected_weights = mixers::reflected_axes(weights);
        let lift = self.lift;
        let reflected_lift = lift.reflected();
        self.motors = reflected_motors;
        self.weights = reflected_weights;
        self.lift = reflected_lift;
        self
    }
}
