// The lists of the modules: numbers through a function, lag, falloff, stall blend, wash, rotation, body step and wrench.
// Each function reads the inputs of a case and gives its answers; `None` where the case has too few inputs.
ghost use Rattle.std.specs.Prelude.{◌≡◌};

use crate::numbers::{Answers, Inputs};
use body::{Body, Loads, MassProperties};
use fixed_wing::{AeroCoefficients, ThrustFalloff};
use tailsitter_model::{PropWash, Wash};
use vector::Vec3;

pub fn lag_factor(inputs: &mut Inputs) -> Option<Answers> {
    let [h, tau_s] = inputs.numbers::<2>()?;
    let powers = libm::powers_of_two();
    Some(Answers::one(lag::factor(h, tau_s, &powers)))
}

pub fn approach_saturated(inputs: &mut Inputs) -> Option<Answers> {
    let [value, command, low, high, alpha] = inputs.numbers::<5>()?;
    Some(Answers::one(lag::approach_saturated(value, command, low, high, 0.0, alpha)))
}

// The falloff of a kind word and a number.
pub fn falloff(inputs: &mut Inputs) -> Option<ThrustFalloff> {
    let kind = inputs.word()?;
    let number = inputs.number()?;
    Some(match kind {
        0 => ThrustFalloff::Linear(number),
        _ => ThrustFalloff::PitchSpeed(number),
    })
}

pub fn falloff_share(inputs: &mut Inputs) -> Option<Answers> {
    let falloff = falloff(inputs)?;
    let [max_thrust_n, share, airspeed_mps] = inputs.numbers::<3>()?;
    Some(Answers::one(falloff.falloff_share(max_thrust_n, share, airspeed_mps)))
}

pub fn stall_blend(inputs: &mut Inputs) -> Option<Answers> {
    let [alpha_stall_rad, stall_sharpness, alpha_rad] = inputs.numbers::<3>()?;
    let coefficients = AeroCoefficients {
        alpha_stall_rad,
        stall_sharpness,
        ..airframe::Airframe::zero().model.aero
    };
    let powers = libm::powers_of_two();
    Some(Answers::one(aero::stall_blend(coefficients, alpha_rad, &powers)))
}

pub fn wash(inputs: &mut Inputs) -> Option<Answers> {
    let [disc_area_m2, surface_fraction, roll_fraction] = inputs.numbers::<3>()?;
    let [
        pitch_moment,
        stall_pitch_moment,
        sink_loss,
        damping_fraction,
    ] = inputs.numbers::<4>()?;
    let [thrust_n, axial_mps] = inputs.numbers::<2>()?;
    let p = PropWash {
        disc_area_m2,
        surface_fraction,
        roll_fraction,
        pitch_moment,
        stall_pitch_moment,
        sink_loss,
        damping_fraction,
    };
    let mut answers = Answers::one(p.added_pa(thrust_n, axial_mps, 1.225));
    let wash = p.wash(thrust_n, axial_mps, 1.225);
    answers.push_all(&[
        wash.pressure_pa,
        wash.roll_pressure_pa,
        wash.pitch_moment_pa,
        wash.stall_pitch_moment_pa,
        wash.damping_mps,
    ]);
    Some(answers)
}

pub fn rotate(inputs: &mut Inputs) -> Option<Answers> {
    let attitude = inputs.quaternion()?;
    let vec = inputs.vec()?;
    let mut answers = Answers::new();
    answers.push_vec(attitude.transform_vector(vec));
    answers.push_vec(attitude.inverse_transform_vector(vec));
    Some(answers)
}

pub fn body_step(inputs: &mut Inputs) -> Option<Answers> {
    let mass = MassProperties {
        mass_kg: inputs.number()?,
        inertia_kgm2: inputs.vec()?,
    };
    let loads = Loads {
        force_ned_n: inputs.vec()?,
        torque_nm: inputs.vec()?,
        damping_nm: Vec3::zeros(),
    };
    let h = inputs.number()?;
    let body = Body {
        position_ned_m: inputs.vec()?,
        velocity_ned_mps: inputs.vec()?,
        attitude: inputs.quaternion()?,
        angular_velocity_radps: inputs.vec()?,
    };
    let after = body.step(mass, loads, h);
    let mut answers = Answers::new();
    answers.push_vec(after.position_ned_m);
    answers.push_vec(after.velocity_ned_mps);
    answers.push_quaternion(after.attitude);
    answers.push_vec(after.angular_velocity_radps);
    Some(answers)
}

fn coefficients(inputs: &mut Inputs) -> Option<AeroCoefficients> {
    let [c_lift_0, c_lift_alpha, alpha_stall_rad, stall_sharpness] = inputs.numbers::<4>()?;
    let [c_drag_0, oswald, c_side_beta, c_side_rudder] = inputs.numbers::<4>()?;
    let [
        c_roll_beta,
        c_roll_p,
        c_roll_r,
        c_roll_aileron,
        c_roll_rudder,
    ] = inputs.numbers::<5>()?;
    let [
        c_pitch_0,
        c_pitch_alpha,
        post_stall_pitch_share,
        c_pitch_q,
        c_pitch_elevator,
    ] = inputs.numbers::<5>()?;
    let [
        surface_stall_share,
        c_yaw_beta,
        c_yaw_p,
        c_yaw_r,
        c_yaw_rudder,
    ] = inputs.numbers::<5>()?;
    Some(AeroCoefficients {
        c_lift_0,
        c_lift_alpha,
        alpha_stall_rad,
        stall_sharpness,
        c_drag_0,
        oswald,
        c_side_beta,
        c_side_rudder,
        c_roll_beta,
        c_roll_p,
        c_roll_r,
        c_roll_aileron,
        c_roll_rudder,
        c_pitch_0,
        c_pitch_alpha,
        post_stall_pitch_share,
        c_pitch_q,
        c_pitch_elevator,
        surface_stall_share,
        c_yaw_beta,
        c_yaw_p,
        c_yaw_r,
        c_yaw_rudder,
    })
}

pub fn wrench(inputs: &mut Inputs) -> Option<Answers> {
    let mut model = airframe::Airframe::zero().model;
    let [wing_area_m2, span_m, chord_m] = inputs.numbers::<3>()?;
    model.wing_area_m2 = wing_area_m2;
    model.span_m = span_m;
    model.chord_m = chord_m;
    model.aero = coefficients(inputs)?;
    let air_mps = inputs.vec()?;
    let rates_radps = inputs.vec()?;
    let deflection_rad = inputs.vec()?;
    let [
        pressure_pa,
        roll_pressure_pa,
        pitch_moment_pa,
        stall_pitch_moment_pa,
        damping_mps,
    ] = inputs.numbers::<5>()?;
    let wash = Wash {
        pressure_pa,
        roll_pressure_pa,
        pitch_moment_pa,
        stall_pitch_moment_pa,
        damping_mps,
    };
    let powers = libm::powers_of_two();
    let made = aero::wrench(
        model,
        air_mps,
        rates_radps,
        deflection_rad,
        wash,
        1.225,
        &powers,
    );
    let mut answers = Answers::new();
    answers.push_vec(made.force_n);
    answers.push_vec(made.torque_nm);
    answers.push_all(&[made.alpha_rad, made.beta_rad]);
    Some(answers)
}
