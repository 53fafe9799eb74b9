// 01, module 6: force, moment and flow angles of the aeroplane in the air (`wrench`). `powers` is libm's table, for the stall blend.
#![tactic(auto)]

ghost use Rattle.std.specs.Prelude.{◌≡◌};
ghost use Rattle.aero.specs.Coefficients as Coefficients;
ghost use Rattle.aero.specs.Wrench as Wrench;
ghost use Rattle.book.specs.Numbers as Numbers;

use fixed_wing::{AeroCoefficients, FixedWingModel};
use libm::PowerTable;
use tailsitter_model::Wash;
use vector::Vec3;

// The stall blend holds its two exponents within ± this.
const MAX_BLEND_EXPONENT: f32 = 60.0;

const PI: f32 = 3.14159265358979;

// In chords behind the leading edge.
const QUARTER_CHORD: f32 = 0.25;

// What the air does to the aeroplane, with alpha and beta. Vectors are on body axes.
#[derive(Clone, Copy)]
pub struct Aero {
    // In N.
    pub force_n: Vec3,
    // In N·m, about the centre of gravity.
    pub torque_nm: Vec3,
    // Alpha.
    pub alpha_rad: f32,
    // Beta: above 0 where the air comes from the right wing's side.
    pub beta_rad: f32,
}

// What lift, drag and pitch go by, from u and w alone: alpha, what follows from alpha, and Qs.
#[derive(Clone, Copy)]
struct Flow {
    alpha_rad: f32,
    blend: f32,
    sin_alpha: f32,
    cos_alpha: f32,
    symmetric_area_n: f32,
}

// Module 6 as a whole. `air_mps` is (u, v, w), `rates_radps` (p, q, r), `deflection_rad` aileron, elevator, rudder. Air whose
// speed is not above 0, or NaN, counts as still.
#[tactic(auto, unfolding(crate::specs::Wrench::aero_wrench))]
pub fn wrench(
    model: FixedWingModel,
    air_mps: Vec3,
    rates_radps: Vec3,
    deflection_rad: Vec3,
    wash: Wash,
    density_kgpm3: f32,
    powers: &PowerTable,
) -> Aero
    ensures { result ≡ Wrench.aero_wrench model air_mps rates_radps deflection_rad wash density_kgpm3 }
{
    let speed_mps = air_mps.norm();
    if speed_mps > 0.0 {
        let flow = flow_of(model, air_mps, density_kgpm3, powers);
        let beta_rad = sideslip(air_mps.y, speed_mps);
        return moving(
            model,
            speed_mps,
            flow,
            beta_rad,
            rates_radps,
            deflection_rad,
            wash,
            density_kgpm3,
        );
    }
    still(model, rates_radps, deflection_rad, wash, density_kgpm3)
}

// Without airspeed only the wash acts: on the surfaces, as a pitch moment, and in the rate terms.
#[tactic(auto, unfolding(crate::specs::Wrench::still_of))]
fn still(
    model: FixedWingModel,
    rates_radps: Vec3,
    deflection_rad: Vec3,
    wash: Wash,
    density_kgpm3: f32,
) -> Aero
    ensures { result ≡ Wrench.still_of model rates_radps deflection_rad wash density_kgpm3 }
{
    let surfaces = washed_surfaces(model, wash, 0.0, deflection_rad);
    let force_n = surfaces.force_n;
    let torque_nm = surfaces.torque_nm;
    let rate_scale = wash_rate_scale(model, wash, density_kgpm3);
    Aero {
        force_n,
        torque_nm: torque_nm
            + wash_pitch_nm(model, wash)
            + rate_moments(model, rate_scale, rates_radps),
        alpha_rad: surfaces.alpha_rad,
        beta_rad: surfaces.beta_rad,
    }
}

// With airspeed: lift, drag and pitch go by Qs, all that depends on beta by Q.
fn moving(
    model: FixedWingModel,
    speed_mps: f32,
    flow: Flow,
    beta_rad: f32,
    rates_radps: Vec3,
    deflection_rad: Vec3,
    wash: Wash,
    density_kgpm3: f32,
) -> Aero
    ensures { result ≡ Wrench.moving_of model speed_mps flow beta_rad rates_radps deflection_rad wash density_kgpm3 }
{
    let c = model.aero;
    let area_n = pressure_area_n(model, speed_mps, density_kgpm3);
    let surface_free_n = area_n * (1.0 - c.surface_stall_share * flow.blend);
    let surfaces = washed_surfaces(model, wash, surface_free_n, deflection_rad);
    let rate_scale = area_n / speed_mps + wash_rate_scale(model, wash, density_kgpm3);
    let side_n = area_n * c.c_side_beta * beta_rad;
    let force_n = flow_force_n(model, flow, side_n);
    let torque_nm = static_nm(model, flow, area_n, beta_rad)
        + wash_pitch_nm(model, wash)
        + stall_wash_nm(model, flow, area_n, wash)
        + rate_moments(model, rate_scale, rates_radps);
    with_surfaces(force_n, torque_nm, surfaces, flow.alpha_rad, beta_rad)
}

#[tactic(auto, unfolding(crate::specs::Wrench::with_surfaces))]
fn with_surfaces(
    force_n: Vec3,
    torque_nm: Vec3,
    surfaces: Aero,
    alpha_rad: f32,
    beta_rad: f32,
) -> Aero
    ensures { result ≡ Wrench.with_surfaces force_n torque_nm surfaces alpha_rad beta_rad }
{
    let surface_n = surfaces.force_n;
    let surface_nm = surfaces.torque_nm;
    Aero {
        force_n: force_n + surface_n,
        torque_nm: torque_nm + surface_nm,
        alpha_rad,
        beta_rad,
    }
}

// Of (u, v, w), v plays no part here.
#[tactic(auto, unfolding(crate::specs::Wrench::flow_at, crate::specs::Wrench::flow_of))]
fn flow_of(model: FixedWingModel, air_mps: Vec3, density_kgpm3: f32, powers: &PowerTable) -> Flow
    ensures { result ≡ Wrench.flow_of model air_mps density_kgpm3 }
{
    let c = model.aero;
    let alpha_rad = libm::atan2f(air_mps.z, air_mps.x);
    let speed_mps = symmetric_speed_mps(air_mps);
    Flow {
        alpha_rad,
        blend: stall_blend(c, alpha_rad, powers),
        sin_alpha: libm::sinf(alpha_rad),
        cos_alpha: libm::cosf(alpha_rad),
        symmetric_area_n: pressure_area_n(model, speed_mps, density_kgpm3),
    }
}

// sqrt(u·u + w·w).
#[tactic(auto, unfolding(crate::specs::Wrench::symmetric_speed))]
fn symmetric_speed_mps(air_mps: Vec3) -> f32
    ensures { result ≡ Wrench.symmetric_speed air_mps }
{
    libm::sqrtf(air_mps.x * air_mps.x + air_mps.z * air_mps.z)
}

#[tactic(auto, unfolding(crate::specs::Wrench::sideslip))]
fn sideslip(air_y_mps: f32, speed_mps: f32) -> f32
    ensures { result ≡ Wrench.sideslip air_y_mps speed_mps }
{
    libm::asinf(float::clamp(air_y_mps / speed_mps, -1.0, 1.0))
}

// Lift at a right angle to (u, w), drag against it, and the side force by beta.
#[tactic(auto, unfolding(crate::specs::Wrench::flow_force, crate::specs::Wrench::flow_lift))]
fn flow_force_n(model: FixedWingModel, flow: Flow, side_n: f32) -> Vec3
    ensures { result ≡ Wrench.flow_force model flow side_n }
{
    let c = model.aero;
    let sin_alpha = flow.sin_alpha;
    let cos_alpha = flow.cos_alpha;
    let lift_n = flow.symmetric_area_n
        * lift_coefficient(c, flow.alpha_rad, flow.blend, sin_alpha, cos_alpha);
    let drag_n = flow_drag_n(model, flow);
    Vec3::new(
        lift_n * sin_alpha - drag_n * cos_alpha,
        side_n,
        -lift_n * cos_alpha - drag_n * sin_alpha,
    )
}

// Between the attached wing's drag and the plate's, by the stall blend.
fn flow_drag_n(model: FixedWingModel, flow: Flow) -> f32
    ensures { result ≡ Wrench.flow_drag model flow }
{
    let c = model.aero;
    let blend = flow.blend;
    let attached = drag_coefficient(model, flow.alpha_rad);
    flow.symmetric_area_n * (1.0 - blend) * attached
        + flow.symmetric_area_n * blend * flat_plate_drag(c, flow.sin_alpha)
}

// Moments by alpha and beta alone: no rates, deflections or wash.
#[tactic(auto, unfolding(crate::specs::Wrench::static_moments))]
fn static_nm(model: FixedWingModel, flow: Flow, area_n: f32, beta_rad: f32) -> Vec3
    ensures { result ≡ Wrench.static_moments model flow area_n beta_rad }
{
    let c = model.aero;
    let pitch = pitch_coefficient(
        c,
        flow.alpha_rad,
        flow.blend,
        flow.sin_alpha,
        flow.cos_alpha,
    );
    Vec3::new(
        area_n * model.span_m * c.c_roll_beta * beta_rad,
        flow.symmetric_area_n * model.chord_m * pitch,
        area_n * model.span_m * c.c_yaw_beta * beta_rad,
    )
}

// What the wash adds to the pitch moment beyond the stall: none of it tail first, more with a larger share of free stream.
#[tactic(auto, unfolding(crate::specs::Wrench::stall_share, crate::specs::Wrench::stall_wash))]
fn stall_wash_nm(model: FixedWingModel, flow: Flow, area_n: f32, wash: Wash) -> Vec3
    ensures { result ≡ Wrench.stall_wash model flow area_n wash }
{
    let free_pa = area_n / model.wing_area_m2;
    let total_pa = free_pa + float::at_least_zero(wash.pressure_pa);
    let stall_share = flow.blend
        * free_share(free_pa, total_pa)
        * float::at_least_zero(flow.cos_alpha);
    Vec3::new(
        0.0,
        stall_share * wash.stall_pitch_moment_pa * model.wing_area_m2 * model.chord_m,
        0.0,
    )
}

// 0 where the sum is not above 0, as without wash at a speed whose square underflows.
#[tactic(auto, unfolding(crate::specs::Wrench::free_share))]
fn free_share(free_pa: f32, total_pa: f32) -> f32
    ensures { result ≡ Wrench.free_share free_pa total_pa }
{
    if total_pa > 0.0 {
        return free_pa / total_pa;
    }
    0.0
}

// The wash torque of module 6.
#[tactic(auto, unfolding(crate::specs::Wrench::wash_pitch))]
fn wash_pitch_nm(model: FixedWingModel, wash: Wash) -> Vec3
    ensures { result ≡ Wrench.wash_pitch model wash }
{
    Vec3::new(
        0.0,
        wash.pitch_moment_pa * model.wing_area_m2 * model.chord_m,
        0.0,
    )
}

// The wash scale of module 6.
fn wash_rate_scale(model: FixedWingModel, wash: Wash, density_kgpm3: f32) -> f32
    ensures { result ≡ Wrench.wash_rate_scale model wash density_kgpm3 }
{
    0.5 * density_kgpm3 * wash.damping_mps * model.wing_area_m2
}

// Surfaces in free stream and wash: roll has a pressure of its own.
#[tactic(auto, unfolding(crate::specs::Wrench::washed_surfaces))]
fn washed_surfaces(
    model: FixedWingModel,
    wash: Wash,
    surface_free_n: f32,
    deflection_rad: Vec3,
) -> Aero
    ensures { result ≡ Wrench.washed_surfaces model wash surface_free_n deflection_rad }
{
    let roll_area_n = with_wash(surface_free_n, wash.roll_pressure_pa, model.wing_area_m2);
    let area_n = with_wash(surface_free_n, wash.pressure_pa, model.wing_area_m2);
    surface_wrench(model, roll_area_n, area_n, deflection_rad)
}

#[tactic(auto, unfolding(crate::specs::Wrench::with_wash))]
fn with_wash(surface_free_n: f32, wash_pa: f32, wing_area_m2: f32) -> f32
    ensures { result ≡ Wrench.with_wash surface_free_n wash_pa wing_area_m2 }
{
    float::at_least_zero(surface_free_n + wash_pa * wing_area_m2)
}

// Surface force and torque: `roll_area_n` is R, for the aileron, `pressure_area_n` is E, for elevator and rudder.
#[tactic(auto, unfolding(crate::specs::Wrench::aileron_moment, crate::specs::Wrench::elevator_and_rudder, crate::specs::Wrench::surface_wrench))]
fn surface_wrench(
    model: FixedWingModel,
    roll_area_n: f32,
    pressure_area_n: f32,
    deflection_rad: Vec3,
) -> Aero
    ensures { result ≡ Wrench.surface_wrench model roll_area_n pressure_area_n deflection_rad }
{
    let c = model.aero;
    let aileron_nm = Vec3::new(
        roll_area_n * model.span_m * c.c_roll_aileron * deflection_rad.x,
        0.0,
        0.0,
    );
    let elevator_and_rudder_nm = Vec3::new(
        model.span_m * c.c_roll_rudder * deflection_rad.z,
        model.chord_m * c.c_pitch_elevator * deflection_rad.y,
        model.span_m * c.c_yaw_rudder * deflection_rad.z,
    ) * pressure_area_n;
    Aero {
        force_n: Vec3::new(
            0.0,
            pressure_area_n * c.c_side_rudder * deflection_rad.z,
            0.0,
        ),
        torque_nm: aileron_nm + elevator_and_rudder_nm,
        alpha_rad: 0.0,
        beta_rad: 0.0,
    }
}

// The torque by p, q and r, rates(z), z being `rate_scale`.
fn rate_moments(model: FixedWingModel, rate_scale: f32, rates_radps: Vec3) -> Vec3
    ensures { result ≡ Wrench.rate_moments model rate_scale rates_radps }
{
    let c = model.aero;
    let span = model.span_m;
    let chord = model.chord_m;
    let p = rates_radps.x;
    let q = rates_radps.y;
    let r = rates_radps.z;
    Vec3::new(
        rate_scale * span * span / 2.0 * (c.c_roll_p * p + c.c_roll_r * r),
        rate_scale * chord * chord / 2.0 * c.c_pitch_q * q,
        rate_scale * span * span / 2.0 * (c.c_yaw_p * p + c.c_yaw_r * r),
    )
}

// Q(V).
fn pressure_area_n(model: FixedWingModel, speed_mps: f32, density_kgpm3: f32) -> f32
    ensures { result ≡ Wrench.pressure_area model speed_mps density_kgpm3 }
{
    0.5 * density_kgpm3 * speed_mps * speed_mps * model.wing_area_m2
}

// The stall blend: near 0 between the two stall angles, near 1 beyond them.
pub fn stall_blend(c: AeroCoefficients, alpha_rad: f32, powers: &PowerTable) -> f32
    ensures { result ≡ Coefficients.stall_blend c alpha_rad }
{
    let past_positive = exponent(-c.stall_sharpness * (alpha_rad - c.alpha_stall_rad), powers);
    let past_negative = exponent(c.stall_sharpness * (alpha_rad + c.alpha_stall_rad), powers);
    (1.0 + past_positive + past_negative) / ((1.0 + past_positive) * (1.0 + past_negative))
}

fn exponent(x: f32, powers: &PowerTable) -> f32
    ensures { result ≡ Coefficients.exponent x }
{
    libm::expf_with(
        float::clamp(x, -MAX_BLEND_EXPONENT, MAX_BLEND_EXPONENT),
        powers,
    )
}

// The attached wing's lift, a line over alpha.
#[tactic(auto, unfolding(crate::specs::Coefficients::linear_lift))]
fn linear_lift(c: AeroCoefficients, alpha_rad: f32) -> f32
    ensures { result ≡ Coefficients.linear_lift c alpha_rad }
{
    c.c_lift_0 + c.c_lift_alpha * alpha_rad
}

// From the line to the plate's lift, by the blend.
fn lift_coefficient(
    c: AeroCoefficients,
    alpha_rad: f32,
    blend: f32,
    sin_alpha: f32,
    cos_alpha: f32,
) -> f32
    ensures { result ≡ Coefficients.lift_coefficient c alpha_rad blend sin_alpha cos_alpha }
{
    (1.0 - blend) * linear_lift(c, alpha_rad)
        + blend * flat_plate_lift(alpha_rad, sin_alpha, cos_alpha)
}

// The attached wing's drag: parasitic, and induced by its lift.
fn drag_coefficient(model: FixedWingModel, alpha_rad: f32) -> f32
    ensures { result ≡ Coefficients.drag_coefficient model alpha_rad }
{
    let c = model.aero;
    let lift = linear_lift(c, alpha_rad);
    let aspect_ratio = fixed_wing::aspect_ratio(model.span_m, model.wing_area_m2);
    c.c_drag_0 + lift * lift / (PI * c.oswald * aspect_ratio)
}

// The sign of x as 1 or -1, of a zero 1; a NaN's is a NaN.
fn sign(x: f32) -> f32
    ensures { result ≡ Numbers.sign_of x }
{
    if x < 0.0 {
        return -1.0;
    }
    if x != x {
        return 0.0 / 0.0;
    }
    1.0
}

// The lift of a flat plate.
fn flat_plate_lift(alpha_rad: f32, sin_alpha: f32, cos_alpha: f32) -> f32
    ensures { result ≡ Coefficients.flat_plate_lift alpha_rad sin_alpha cos_alpha }
{
    2.0 * sign(alpha_rad) * sin_alpha * sin_alpha * cos_alpha
}

// The plate's drag without the parasitic part.
fn flat_plate_pressure_drag(sin_alpha: f32) -> f32
    ensures { result ≡ Coefficients.flat_plate_pressure_drag sin_alpha }
{
    2.0 * sin_alpha * sin_alpha
}

// The stalled wing's drag.
#[tactic(auto, unfolding(crate::specs::Coefficients::flat_plate_drag, crate::specs::Coefficients::flat_plate_pressure_drag))]
fn flat_plate_drag(c: AeroCoefficients, sin_alpha: f32) -> f32
    ensures { result ≡ Coefficients.flat_plate_drag c sin_alpha }
{
    c.c_drag_0 + flat_plate_pressure_drag(sin_alpha)
}

// From the quarter chord forward to the centre of gravity, in chords; 0 where lift does not rise with alpha.
#[tactic(auto, unfolding(crate::specs::Coefficients::static_margin))]
fn static_margin_chords(c: AeroCoefficients) -> f32
    ensures { result ≡ Coefficients.static_margin c }
{
    if c.c_lift_alpha > 0.0 {
        return -c.c_pitch_alpha / c.c_lift_alpha;
    }
    0.0
}

// The plate's pitch moment: its normal force acts 0.25 chords behind the leading edge at alpha 0, 0.75 at ±π; aft of the centre
// of gravity it pitches the nose down.
fn flat_plate_pitch(c: AeroCoefficients, alpha_rad: f32, sin_alpha: f32, cos_alpha: f32) -> f32
    ensures { result ≡ Coefficients.flat_plate_pitch c alpha_rad sin_alpha cos_alpha }
{
    let normal = flat_plate_lift(alpha_rad, sin_alpha, cos_alpha) * cos_alpha
        + flat_plate_pressure_drag(sin_alpha) * sin_alpha;
    let center_of_gravity = QUARTER_CHORD - static_margin_chords(c);
    let center_of_pressure = QUARTER_CHORD + 0.5 * float::abs(alpha_rad) / PI;
    -normal * (center_of_pressure - center_of_gravity)
}

// Cm: the attached wing's line over sin alpha, and past the stall a share of the plate's moment.
fn pitch_coefficient(
    c: AeroCoefficients,
    alpha_rad: f32,
    blend: f32,
    sin_alpha: f32,
    cos_alpha: f32,
) -> f32
    ensures { result ≡ Coefficients.pitch_coefficient c alpha_rad blend sin_alpha cos_alpha }
{
    let on_sin_alpha = c.c_pitch_0 + c.c_pitch_alpha * sin_alpha;
    let plate_share = c.post_stall_pitch_share * blend;
    if plate_share <= 0.0 {
        return on_sin_alpha;
    }
    let plate = c.c_pitch_0 + flat_plate_pitch(c, alpha_rad, sin_alpha, cos_alpha);
    on_sin_alpha + plate_share * (plate - on_sin_alpha)
}
