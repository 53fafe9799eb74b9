// The lists of the motors, the lift rotors and the surfaces. Each function reads the inputs of a case and gives its answers;
// `None` where the case has too few inputs, or more rows than an airframe.
use crate::modules;
use crate::numbers::{Answers, Inputs};
use mixers::{MOST_ROWS, MixRow, Rows, Slot};
use motors::{MotorGroup, MotorLayout, Motors};
use quadplane_model::LiftRotors;
use surfaces::Surfaces;

// Motors of the thrust and exponent that come next, and neither arm nor yaw torque: their torques come with the group.
fn layout_of_thrust(inputs: &mut Inputs) -> Option<MotorLayout> {
    let [max_thrust_n, thrust_exponent] = inputs.numbers::<2>()?;
    Some(MotorLayout {
        moment_arm_m: 0.0,
        yaw_torque_per_thrust_m: 0.0,
        max_thrust_n,
        thrust_exponent,
    })
}

// Motors of 1 N by the square, with the arm and the yaw torque that come next.
fn layout_of_arm(inputs: &mut Inputs) -> Option<MotorLayout> {
    let [moment_arm_m, yaw_torque_per_thrust_m] = inputs.numbers::<2>()?;
    Some(MotorLayout {
        moment_arm_m,
        yaw_torque_per_thrust_m,
        max_thrust_n: 1.0,
        thrust_exponent: 2.0,
    })
}

// The motors of the flags and torques that come next.
fn group(inputs: &mut Inputs, layout: MotorLayout) -> Option<MotorGroup> {
    Some(MotorGroup {
        layout,
        time_constant_s: 1.0,
        used: inputs.flags()?,
        torque_per_thrust_m: inputs.vecs()?,
    })
}

pub fn motors(inputs: &mut Inputs) -> Option<Answers> {
    let falloff = modules::falloff(inputs)?;
    let layout = layout_of_thrust(inputs)?;
    let [airspeed_mps, factor] = inputs.numbers::<2>()?;
    let motors = Motors {
        group: group(inputs, layout)?,
        running: inputs.numbers()?,
        thrust_scale: inputs.numbers()?,
    };
    let spun = motors.spin(inputs.numbers()?, factor);
    let powers = libm::powers_of_two();
    let pull = spun.wrench_with(falloff, airspeed_mps, &powers);
    let mut answers = Answers::new();
    answers.push_all(&spun.running);
    answers.push(pull.thrust_n);
    answers.push_vec(pull.torque_nm);
    Some(answers)
}

// The rotors' values after a step of their lag, and their force and torque.
pub fn lift(inputs: &mut Inputs) -> Option<Answers> {
    let layout = layout_of_thrust(inputs)?;
    let [drag_per_thrust_n_per_mps, factor] = inputs.numbers::<2>()?;
    let air_mps = inputs.vec()?;
    let rotors = LiftRotors {
        motors: group(inputs, layout)?,
        drag_per_thrust_n_per_mps,
    };
    let spun = rotors.at(inputs.numbers()?).spin(inputs.numbers()?, factor);
    let powers = libm::powers_of_two();
    let wrench = rotors.wrench(spun.running, air_mps, &powers);
    let mut answers = Answers::new();
    answers.push_all(&spun.running);
    answers.push_vec(wrench.force_n);
    answers.push_vec(wrench.torque_nm);
    Some(answers)
}

// The slot of a kind word and an index. The lists may hold any word: one that is no kind counts as a servo.
fn slot(kind: u32, index: u32) -> Slot {
    let index = (index % 8) as u8;
    match kind {
        0 => Slot::Motor(index),
        2 => Slot::Lift(index),
        _ => Slot::Servo(index),
    }
}

fn row(inputs: &mut Inputs) -> Option<MixRow> {
    let kind = inputs.word()?;
    let slot = slot(kind, inputs.word()?);
    let [roll, pitch, yaw] = inputs.numbers::<3>()?;
    Some(MixRow {
        slot,
        roll,
        pitch,
        yaw,
    })
}

// As many rows as the next word says.
fn rows(inputs: &mut Inputs) -> Option<Rows> {
    let count = inputs.word()? as usize;
    let none = MixRow {
        slot: Slot::Motor(0),
        roll: 0.0,
        pitch: 0.0,
        yaw: 0.0,
    };
    let mut rows = [none; MOST_ROWS];
    for place in rows.get_mut(..count)? {
        *place = row(inputs)?;
    }
    Some(Rows { rows, count })
}

// The lift rotors of the rows.
fn lift_group(rows: Rows, layout: MotorLayout) -> MotorGroup {
    let mut group = MotorGroup::empty(layout, 1.0);
    for row in &rows.rows[..rows.live()] {
        group = group.put_lift(*row);
    }
    group
}

// The marks and torques of the groups that the rows make.
pub fn motor_rows(inputs: &mut Inputs) -> Option<Answers> {
    let layout = layout_of_arm(inputs)?;
    let lift_layout = layout_of_arm(inputs)?;
    let rows = rows(inputs)?;
    let motors = MotorGroup::new(rows, layout, 1.0);
    let lift = lift_group(rows, lift_layout);
    let mut answers = Answers::new();
    answers.push_flags(motors.used);
    answers.push_vecs(motors.torque_per_thrust_m);
    answers.push_flags(lift.used);
    answers.push_vecs(lift.torque_per_thrust_m);
    Some(answers)
}

// The weights of the surfaces that the rows make, their positions after a step, and their deflections.
pub fn surfaces(inputs: &mut Inputs) -> Option<Answers> {
    let mut surfaces = Surfaces::new(rows(inputs)?);
    surfaces.running = inputs.numbers()?;
    let commands = inputs.numbers()?;
    let after = surfaces.move_to(commands, inputs.number()?);
    let max_deflection_rad = inputs.vec()?;
    let mut answers = Answers::new();
    answers.push_vecs(after.weights);
    answers.push_all(&after.running);
    answers.push_vec(after.deflection_rad(max_deflection_rad));
    Some(answers)
}
