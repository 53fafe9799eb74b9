// 02, 5: lift rotors, a second group of motors. They push along body -z, and air along their discs drags them.
#![tactic(auto)]

ghost use Rattle.std.specs.Prelude.{◌≡◌};
ghost use Rattle.quadplane_model.specs.Lift as Lift;

use body::Wrench;
use libm::PowerTable;
use motors::{MotorGroup, Motors};
use std::array;
use vector::Vec3;

// Places 52 to 57 of an airframe, and what its rows say of lift rotors.
#[derive(Clone, Copy)]
pub struct LiftRotors {
    pub motors: MotorGroup,
    // In-plane drag, in N for each m/s of air and each N of thrust.
    pub drag_per_thrust_n_per_mps: f32,
}

impl LiftRotors {
    // The rotors at their running values, each as strong as built: thrust scales are the other group's.
    pub fn at(self, running: [f32; 8]) -> Motors
        ensures { result ≡ Lift.rotors_at self running }
    {
        let group = self.motors;
        let thrust_scale = [1.0; 8];
        Motors {
            group,
            running,
            thrust_scale,
        }
    }

    // The running values after a step of the lag: each used rotor follows its command, as a motor does. Not by `Motors::spin`, so that
    // the group is not copied (docs/DECISIONS.md, 85).
    pub fn spun(self, running: [f32; 8], commands: [f32; 8], factor: f32) -> [f32; 8]
        ensures { result ≡ Lift.rotors_spun self running commands factor }
    {
        let used = self.motors.used;
        array::from_fn(|i| motors::spun(used[i], running[i], commands[i], factor))
    }

    // Force and torque on body axes at the running values, `air_mps` being the air velocity on body axes: what of it passes along the
    // discs drags them.
    pub fn wrench(self, running: [f32; 8], air_mps: Vec3, powers: &PowerTable) -> Wrench
        ensures { result ≡ Lift.lift_wrench self running air_mps }
    {
        let pull = self.at(running).wrench(powers);
        let thrust_n = pull.thrust_n;
        let along_discs = Vec3::new(air_mps.x, air_mps.y, 0.0);
        let drag = along_discs * (self.drag_per_thrust_n_per_mps * thrust_n);
        let force_n = Vec3::new(0.0, 0.0, -thrust_n) - drag;
        let torque_nm = pull.torque_nm;
        Wrench { force_n, torque_nm }
    }

    // The reflection of left and right: roll and yaw of the torques negated.
    pub fn reflected(mut self) -> Self
        ensures { result ≡ Lift.reflect_rotors self }
    {
        let motors = self.motors;
        let reflected = motors.reflected();
        self.motors = reflected;
        self
    }
}
