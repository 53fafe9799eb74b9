// 01, module 2: motors that follow their commands, their thrust and their torque. There are two groups of them: those along body x,
// and lift rotors (02, 5).
#![tactic(auto)]

ghost use Rattle.std.specs.Prelude.{Float, ◌≡◌};
ghost use Rattle.fixed_wing.specs.Falloff.{falloff_share};
ghost use Rattle.motors.specs.Motor as Motor;
ghost use Rattle.motors.specs.Reflection as Reflection;

use fixed_wing::ThrustFalloff;
use libm::PowerTable;
use mixers::{MixRow, Rows, Slot};
use std::array;
use vector::Vec3;

// What all motors of a group have in common but their lag: places 40, 41, 35 and 36, or 54, 55, 52 and 53.
#[derive(Clone, Copy)]
pub struct MotorLayout {
    // The arm of a roll or pitch factor of 1.
    pub moment_arm_m: f32,
    // N·m for each N of a motor with yaw factor 1.
    pub yaw_torque_per_thrust_m: f32,
    // One motor's, at running value 1 in still air.
    pub max_thrust_n: f32,
    pub thrust_exponent: f32,
}

// A group of motors: what of it stays as it is in flight. Slots are arrays beside each other, as callers in C have them.
#[derive(Clone, Copy)]
pub struct MotorGroup {
    pub layout: MotorLayout,
    // Of their lag.
    pub time_constant_s: f32,
    // The slots that follow their commands.
    pub used: [bool; 8],
    // By slot, torque on body axes for each N of its thrust.
    pub torque_per_thrust_m: [Vec3; 8],
}

// A group, its running values and its thrust scales.
#[derive(Clone, Copy)]
pub struct Motors {
    pub group: MotorGroup,
    pub running: [f32; 8],
    // By slot, how strong a motor is: 1 as built, 0 gives no thrust (02, 2).
    pub thrust_scale: [f32; 8],
}

// Sums over the 8 slots; thrust is along the group's axis.
#[derive(Clone, Copy)]
pub struct MotorWrench {
    pub thrust_n: f32,
    pub torque_nm: Vec3,
}

impl MotorGroup {
    // From the rows of an airframe.
    pub fn new(rows: Rows, layout: MotorLayout, time_constant_s: f32) -> Self
        ensures { result ≡ Motor.group_of rows layout time_constant_s }
    {
        let mut group = MotorGroup::empty(layout, time_constant_s);
        for row in &rows.rows[..rows.live()] {
            group = group.put(*row);
        }
        group
    }

    // Before the first row: no slot is used.
    pub fn empty(layout: MotorLayout, time_constant_s: f32) -> Self
        ensures { result ≡ Motor.empty_group layout time_constant_s }
    {
        let used = [false; 8];
        let torque_per_thrust_m = [Vec3::zeros(); 8];
        MotorGroup {
            layout,
            time_constant_s,
            used,
            torque_per_thrust_m,
        }
    }

    // Takes in a row, where it is a motor's; of several rows for one slot the last counts.
    pub fn put(self, row: MixRow) -> Self
        ensures { result ≡ Motor.put_motor_row self row }
    {
        let slot = row.slot;
        let layout = self.layout;
        match slot {
            Slot::Motor(index) => self.put_motor(index as usize, layout.torque(row)),
            Slot::Servo(_) => self,
            Slot::Lift(_) => self,
        }
    }

    // The same into a group of lift rotors. The two differ in the kind of row that counts, which each names.
    pub fn put_lift(self, row: MixRow) -> Self
        ensures { result ≡ Motor.put_lift_row self row }
    {
        let slot = row.slot;
        let layout = self.layout;
        match slot {
            Slot::Motor(_) => self,
            Slot::Servo(_) => self,
            Slot::Lift(index) => self.put_motor(index as usize, layout.torque(row)),
        }
    }

    fn put_motor(mut self, index: usize, torque: Vec3) -> Self
        ensures { result ≡ Motor.put_motor self index torque }
    {
        if index < 8 {
            let mut used = self.used;
            let mut torques = self.torque_per_thrust_m;
            used[index] = true;
            torques[index] = torque;
            self.used = used;
            self.torque_per_thrust_m = torques;
            return self;
        }
        self
    }

    // The reflection of left and right: roll and yaw of the torques negated.
    pub fn reflected(mut self) -> Self
        ensures { result ≡ Reflection.reflect_group self }
    {
        let torques = self.torque_per_thrust_m;
        let reflected = mixers::reflected_axes(torques);
        self.torque_per_thrust_m = reflected;
        self
    }
}

impl Motors {
    // A step of the lag of the used motors: a command is held within 0..1, and NaN is 0. `LiftRotors::spun` says why it has its own.
    pub fn spin(mut self, commands: [f32; 8], factor: f32) -> Self
        ensures { result ≡ Motor.spin_of self commands factor }
    {
        let used = self.group.used;
        let running = array::from_fn(|i| spun(used[i], self.running[i], commands[i], factor));
        self.running = running;
        self
    }

    // Used or not, all 8 slots pull by their running values and scales, less what `falloff` takes at the forward airspeed.
    #[tactic(auto, unfolding(crate::specs::Motor::wrench_with))]
    pub fn wrench_with(
        self,
        falloff: ThrustFalloff,
        airspeed_mps: f32,
        powers: &PowerTable,
    ) -> MotorWrench
        ensures { result ≡ Motor.wrench_with self falloff airspeed_mps }
    {
        let falls = FalloffAt {
            falloff,
            airspeed_mps,
        };
        self.wrench_by(falls, powers)
    }

    // The same where nothing falls off.
    #[tactic(auto, unfolding(crate::specs::Motor::wrench_without_falloff))]
    pub fn wrench(self, powers: &PowerTable) -> MotorWrench
        ensures { result ≡ Motor.wrench_without_falloff self }
    {
        self.wrench_by(NoFalloff, powers)
    }

    // The same however thrust falls off.
    fn wrench_by<F: Falls>(self, falls: F, powers: &PowerTable) -> MotorWrench
        ensures { result ≡ Motor.wrench_by self (F.left falls self.group.layout.max_thrust_n) }
    {
        let group = self.group;
        let running = self.running;
        let thrust_scale = self.thrust_scale;
        let torques = group.torque_per_thrust_m;
        let mut thrust_n = 0.0;
        let mut torque_nm = Vec3::zeros();
        for i in 0..8 {
            let one_n = group
                .layout
                .motor_thrust_n(thrust_scale[i], running[i], falls, powers);
            thrust_n += one_n;
            torque_nm = torque_nm + torques[i] * one_n;
        }
        MotorWrench {
            thrust_n,
            torque_nm,
        }
    }
}

// How thrust falls off: what is left of a motor's thrust, which in still air is `share` of `max_thrust_n`.
trait Falls: Copy {
    ghost left: { Self → Float → Float → Float };

    fn share_left(self, max_thrust_n: f32, share: f32) -> f32
        ensures { result ≡ left self max_thrust_n share };
}

// By a falloff at a forward airspeed.
#[derive(Clone, Copy)]
struct FalloffAt {
    falloff: ThrustFalloff,
    airspeed_mps: f32,
}

impl Falls for FalloffAt {
    ghost left = { λ at max_thrust share. falloff_share at.falloff max_thrust share at.airspeed_mps };

    fn share_left(self, max_thrust_n: f32, share: f32) -> f32 {
        self.falloff
            .falloff_share(max_thrust_n, share, self.airspeed_mps)
    }
}

// Not at all.
#[derive(Clone, Copy)]
struct NoFalloff;

impl Falls for NoFalloff {
    ghost left = { λ at max_thrust share. Motor.no_falloff share };

    fn share_left(self, _max_thrust_n: f32, _share: f32) -> f32 {
        1.0
    }
}

impl MotorLayout {
    // A motor row's torque for each N.
    fn torque(self, row: MixRow) -> Vec3
        ensures { result ≡ Motor.torque_of self row }
    {
        Vec3::new(
            row.roll * self.moment_arm_m,
            row.pitch * self.moment_arm_m,
            row.yaw * self.yaw_torque_per_thrust_m,
        )
    }

    // thrust_k of module 2, with the slot's thrust scale; the falloff goes by the share before it is scaled.
    fn motor_thrust_n<F: Falls>(
        self,
        scale: f32,
        running: f32,
        falls: F,
        powers: &PowerTable,
    ) -> f32
        ensures { result ≡ Motor.thrust_of self (F.left falls self.max_thrust_n) scale running }
    {
        let max_thrust_n = self.max_thrust_n;
        let share = thrust_fraction(running, self.thrust_exponent, powers);
        scale * max_thrust_n * share * falls.share_left(max_thrust_n, share)
    }
}

// One motor's new running value; an unused one keeps its own.
pub fn spun(used: bool, running: f32, command: f32, factor: f32) -> f32
    ensures { result ≡ Motor.spun used running command factor }
{
    if used {
        return lag::approach_saturated(running, command, 0.0, 1.0, 0.0, factor);
    }
    running
}

// share_k of module 2, the running value to the power of the exponent (02, 4); the exponent 2 is a square.
fn thrust_fraction(running: f32, thrust_exponent: f32, powers: &PowerTable) -> f32
    ensures { result ≡ Motor.thrust_fraction running thrust_exponent }
{
    if thrust_exponent == 2.0 {
        return running * running;
    }
    libm::powf_with(running, thrust_exponent, powers)
}
