// 01, module 7: the body and its step. World axes are NED, body axes FRD.
#![tactic(auto)]

ghost use Rattle.std.specs.Prelude.{◌≡◌};
ghost use Rattle.body.specs.Motion as Motion;
ghost use Rattle.body.specs.Reflection as Reflection;

use vector::{Quaternion, Vec3};

// g, in m/s² towards +z.
const GRAVITY: f32 = 9.80665;

// The first 13 numbers of a state.
#[derive(Clone, Copy)]
pub struct Body {
    // Position, in m.
    pub position_ned_m: Vec3,
    // Velocity over the ground, in m/s.
    pub velocity_ned_mps: Vec3,
    // Rotates from body axes to NED axes.
    pub attitude: Quaternion,
    // p, q and r, in rad/s.
    pub angular_velocity_radps: Vec3,
}

// Places 1 to 4 of an airframe.
#[derive(Clone, Copy)]
pub struct MassProperties {
    pub mass_kg: f32,
    // The principal moments of inertia, about body x, y and z.
    pub inertia_kgm2: Vec3,
}

// Force and torque on body axes.
#[derive(Clone, Copy)]
pub struct Wrench {
    pub force_n: Vec3,
    pub torque_nm: Vec3,
}

// What acts on the body over a step, without its weight.
#[derive(Clone, Copy)]
pub struct Loads {
    // F of module 7, on NED axes.
    pub force_ned_n: Vec3,
    // On body axes, as the damping is.
    pub torque_nm: Vec3,
    // Taken off the torque; the tick has zeros here.
    pub damping_nm: Vec3,
}

impl Wrench {
    // Both together.
    #[tactic(auto, unfolding(crate::specs::Motion::add_wrench))]
    pub fn add(self, w: Wrench) -> Self
        ensures { result ≡ Motion.add_wrench self w }
    {
        let force = self.force_n;
        let torque = self.torque_nm;
        let force_n = force + w.force_n;
        let torque_nm = torque + w.torque_nm;
        Wrench { force_n, torque_nm }
    }
}

impl Body {
    // The body after a step of `h` seconds: its position moves with the new velocity, its attitude with the new rates.
    #[tactic(auto, unfolding(crate::specs::Motion::next_position, crate::specs::Motion::next_velocity, crate::specs::Motion::step_of))]
    pub fn step(self, mass: MassProperties, loads: Loads, h: f32) -> Self
        ensures { result ≡ Motion.step_of self mass loads h }
    {
        let velocity = self.velocity_ned_mps;
        let position = self.position_ned_m;
        let attitude = self.attitude;
        let rates = self.angular_velocity_radps;
        let force = loads.force_ned_n;
        let inertia = mass.inertia_kgm2;

        let velocity_ned_mps = velocity + acceleration(force, mass.mass_kg) * h;
        let position_ned_m = position + velocity_ned_mps * h;
        let angular_velocity_radps = next_rates(rates, inertia, loads, h);
        Body {
            position_ned_m,
            velocity_ned_mps,
            attitude: next_attitude(attitude, angular_velocity_radps, h),
            angular_velocity_radps,
        }
    }

    // Velocity minus wind, on NED axes.
    #[tactic(auto, unfolding(crate::specs::Motion::air_velocity))]
    pub fn air_relative_velocity_ned_mps(self, wind_ned_mps: Vec3) -> Vec3
        ensures { result ≡ Motion.air_velocity self wind_ned_mps }
    {
        let velocity = self.velocity_ned_mps;
        velocity - wind_ned_mps
    }

    // The reflection of left and right.
    #[tactic(auto, unfolding(crate::specs::Reflection::reflect_body))]
    pub fn reflected(self) -> Self
        ensures { result ≡ Reflection.reflect_body self }
    {
        let position = self.position_ned_m;
        let velocity = self.velocity_ned_mps;
        let attitude = self.attitude;
        let rates = self.angular_velocity_radps;
        Body {
            position_ned_m: position.reflected(),
            velocity_ned_mps: velocity.reflected(),
            attitude: attitude.reflected(),
            angular_velocity_radps: rates.reflected_axis(),
        }
    }
}

// By the force and gravity, down.
fn acceleration(force_ned_n: Vec3, mass_kg: f32) -> Vec3
    ensures { result ≡ Motion.acceleration_of force_ned_n mass_kg }
{
    force_ned_n / mass_kg + Vec3::new(0.0, 0.0, GRAVITY)
}

// torque - (ω cross (I·ω)) - damping.
#[tactic(auto, unfolding(crate::specs::Motion::net_torque))]
fn net_torque(rates: Vec3, inertia: Vec3, loads: Loads) -> Vec3
    ensures { result ≡ Motion.net_torque rates inertia loads }
{
    let torque = loads.torque_nm;
    let damping = loads.damping_nm;
    let momentum = inertia.component_mul(rates);
    torque - rates.cross(momentum) - damping
}

#[tactic(auto, unfolding(crate::specs::Motion::next_rates))]
fn next_rates(rates: Vec3, inertia: Vec3, loads: Loads, h: f32) -> Vec3
    ensures { result ≡ Motion.next_rates rates inertia loads h }
{
    let angular_acceleration = net_torque(rates, inertia, loads).component_div(inertia);
    rates + angular_acceleration * h
}

// The rotation is about body axes, so it stands second in the product.
#[tactic(auto, unfolding(crate::specs::Motion::next_attitude))]
fn next_attitude(attitude: Quaternion, rates: Vec3, h: f32) -> Quaternion
    ensures { result ≡ Motion.next_attitude attitude rates h }
{
    let rotation = Quaternion::from_scaled_axis(rates * h);
    attitude.times(rotation).renormalize_fast()
}
