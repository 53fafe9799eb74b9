// 01, module 4: what an airframe says of the aeroplane itself, and the falloff of thrust.
#![tactic(auto)]

ghost use Rattle.std.specs.Prelude.{◌≡◌};
ghost use Rattle.fixed_wing.specs.Falloff.{falloff_share, pitch_speed_share, aspect_ratio};

use vector::Vec3;

// Thrust by forward airspeed (place 37).
#[derive(Clone, Copy)]
pub enum ThrustFalloff {
    // Full thrust lost, in N for each m/s; with 0 thrust does not fall.
    Linear(f32),
    // Where full thrust is gone, in m/s; part thrust is gone sooner.
    PitchSpeed(f32),
}

// Places 8 to 30 of an airframe, without units but for rad. Their form is that of chapter 4 of Beard and McLain's book, but for
// what docs/DIFFERENCES.md lists; those of p, q and r go with p·b/2V, q·c/2V and r·b/2V.
#[derive(Clone, Copy)]
pub struct AeroCoefficients {
    pub c_lift_0: f32,
    pub c_lift_alpha: f32,
    pub alpha_stall_rad: f32,
    pub stall_sharpness: f32,
    pub c_drag_0: f32,
    pub oswald: f32,
    pub c_side_beta: f32,
    pub c_side_rudder: f32,
    pub c_roll_beta: f32,
    pub c_roll_p: f32,
    pub c_roll_r: f32,
    pub c_roll_aileron: f32,
    pub c_roll_rudder: f32,
    pub c_pitch_0: f32,
    pub c_pitch_alpha: f32,
    pub post_stall_pitch_share: f32,
    pub c_pitch_q: f32,
    pub c_pitch_elevator: f32,
    pub surface_stall_share: f32,
    pub c_yaw_beta: f32,
    pub c_yaw_p: f32,
    pub c_yaw_r: f32,
    pub c_yaw_rudder: f32,
}

// The aeroplane without its motors, whose full thrust, exponent and lag the Rust has here and this code with the group of motors.
#[derive(Clone, Copy)]
pub struct FixedWingModel {
    pub mass_kg: f32,
    // About body x, y and z.
    pub inertia_kgm2: Vec3,
    pub wing_area_m2: f32,
    pub span_m: f32,
    pub chord_m: f32,
    pub aero: AeroCoefficients,
    // Aileron, elevator and rudder at full servo.
    pub max_deflection_rad: Vec3,
    pub servo_time_constant_s: f32,
    pub thrust_falloff: ThrustFalloff,
    pub thrust_line_below_cg_m: f32,
}

// AR = b·b/S.
#[tactic(auto, unfolding(crate::specs::Falloff::aspect_ratio))]
pub fn aspect_ratio(span_m: f32, wing_area_m2: f32) -> f32
    ensures { result ≡ aspect_ratio span_m wing_area_m2 }
{
    span_m * span_m / wing_area_m2
}

impl ThrustFalloff {
    // What the forward airspeed leaves of a motor's thrust in still air, which is `thrust_share` of `max_thrust_n`.
    #[tactic(auto, unfolding(crate::specs::Falloff::falloff_share, crate::specs::Falloff::linear_share))]
    pub fn falloff_share(self, max_thrust_n: f32, thrust_share: f32, airspeed_mps: f32) -> f32
        ensures { result ≡ falloff_share self max_thrust_n thrust_share airspeed_mps }
    {
        let airspeed_mps = float::at_least_zero(airspeed_mps);
        match self {
            ThrustFalloff::Linear(n_per_mps) => {
                float::at_least_zero(max_thrust_n - n_per_mps * airspeed_mps) / max_thrust_n
            }
            ThrustFalloff::PitchSpeed(full_mps) => {
                pitch_speed_share(full_mps, thrust_share, airspeed_mps)
            }
        }
    }
}

// The share of a fixed-pitch prop: 1 in still air, and gone at the speed at which its blades screw forward.
#[tactic(auto, unfolding(crate::specs::Falloff::pitch_speed_share))]
fn pitch_speed_share(full_mps: f32, thrust_share: f32, airspeed_mps: f32) -> f32
    ensures { result ≡ pitch_speed_share full_mps thrust_share airspeed_mps }
{
    if airspeed_mps == 0.0 {
        return 1.0;
    }
    let zero_thrust_mps = full_mps * libm::sqrtf(float::at_least_zero(thrust_share));
    float::at_least_zero(1.0 - airspeed_mps / zero_thrust_mps)
}
