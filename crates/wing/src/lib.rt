// 01, module 8: the tick. Lags, thrust, wash, aerodynamics, lift rotors and the body's step, with the tests 6 to 10 around them.
#![tactic(auto)]

mod accepted;

ghost use Rattle.std.specs.Prelude.{true, ◌≡◌};
ghost use Rattle.air.specs.Density as Density;
ghost use Rattle.flight.specs.Envelope.{is_inside};
ghost use Rattle.libm.specs.Powers.{powers_of_two};
ghost use Rattle.wing.specs.Promises as Promises;
ghost use Rattle.wing.specs.Loads as LoadsOf;
ghost use Rattle.wing.specs.Tick as TickOf;

pub use accepted::Accepted;
use air::DensityTable;
use airframe::{Airframe, LagConstants};
use answers::{Answer, Refusal};
use body::{Body, Loads, MassProperties, Wrench};
use fixed_wing::FixedWingModel;
use flight::{Flight, Tick};
use libm::PowerTable;
use motors::Motors;
use surfaces::Surfaces;
use tailsitter_model::Wash;
use vector::Vec3;

// The tables that a tick looks up, made once a tick or once a run.
#[derive(Clone, Copy)]
pub struct Tables {
    pub powers: PowerTable,
    pub densities: DensityTable,
}

impl Tables {
    pub fn new() -> Self
        ensures powers { result.powers.table ≡ powers_of_two }
        ensures densities { result.densities.table ≡ Density.densities }
    {
        Tables {
            powers: libm::powers_of_two(),
            densities: air::densities(),
        }
    }
}

// Loads, and what a tick reports besides its answer.
#[derive(Clone, Copy)]
pub struct Loaded {
    pub loads: Loads,
    pub alpha_rad: f32,
    pub beta_rad: f32,
    pub thrust_n: f32,
}

// What a tick reports; alpha, beta and thrust are 0 where it is refused. No `Result`, which would have no zeros then (specs/Tick:
// `refused_of`).
#[derive(Clone, Copy)]
pub struct Report {
    pub answer: Answer,
    pub alpha_rad: f32,
    pub beta_rad: f32,
    pub thrust_n: f32,
}

// A tick's report and the state it hands back.
#[derive(Clone, Copy)]
pub struct TickResult {
    pub report: Report,
    pub flight: Flight,
}

// The lag factors of a step, with the bits of that step: they are reused while the step has the same bits. Whose they are is said in
// clauses: a type that knows it would hold airframe and step, too, and be made anew at each tick.
#[derive(Clone, Copy)]
pub struct LagFactors {
    pub step_bits: u32,
    pub motor: f32,
    pub servo: f32,
    // The lift rotors'; 0 without lift numbers, whose lag constant is not tested.
    pub lift: f32,
}

// One tick from `f`: refused with 6, 7, 8, 10 or 9, in this order, it hands back `f`.
pub fn tick(a: Airframe, f: Flight, t: Tick) -> TickResult
    ensures { result ≡ TickOf.tick_of a f t }
{
    match Accepted::of(a) {
        Err(refusal) => refused(Err(refusal), f),
        Ok(accepted) => {
            let tables = Tables::new();
            let lags = begin(a, t.step_s, &tables.powers);
            tick_accepted(accepted, f, t, lags, &tables)
        }
    }
}

// The same of an airframe that is accepted, with the lag factors of the tick's step: the tests 7, 8, 10 and 9.
pub fn tick_accepted(
    a: Accepted,
    f: Flight,
    t: Tick,
    lags: LagFactors,
    tables: &Tables,
) -> TickResult
    requires { lags ≡ Promises.begin_of a.airframe t.step_s }
    ensures { result ≡ TickOf.tick_of a.airframe f t }
{
    if f.is_inside() {
        return tick_inside(a, f, t, lags, tables);
    }
    refused(Err(Refusal::StateOutside), f)
}

// The same from a state inside the envelope: the tests 8, 10 and 9.
pub fn tick_inside(a: Accepted, f: Flight, t: Tick, lags: LagFactors, tables: &Tables) -> TickResult
    requires state_inside { is_inside f ≡ true }
    requires lags_match { lags ≡ Promises.begin_of a.airframe t.step_s }
    ensures { result ≡ TickOf.tick_of a.airframe f t }
{
    if float::inside(t.step_s, 0.0009765625, 0.02) {
        if wind_usable(t.wind_ned_mps) {
            return unless_departed(f, next_with(a.airframe, f, t, lags, tables));
        }
        return refused(Err(Refusal::WindUnusable), f);
    }
    refused(Err(Refusal::StepOutside), f)
}

// Whether the wind is one to fly in: each component is a number from -200 to 200 m/s (02, 1).
fn wind_usable(wind_ned_mps: Vec3) -> bool
    ensures { result ≡ TickOf.wind_usable wind_ned_mps }
{
    wind_ned_mps.is_inside(200.0)
}

// A refusal: the state as it was given, and zeros.
pub fn refused(answer: Answer, f: Flight) -> TickResult
    ensures { result ≡ TickOf.refused_of answer f }
{
    let report = Report {
        answer,
        alpha_rad: 0.0,
        beta_rad: 0.0,
        thrust_n: 0.0,
    };
    TickResult { report, flight: f }
}

// The next state where it is inside the envelope; else a departure from `f`.
fn unless_departed(f: Flight, n: TickResult) -> TickResult
    ensures { result ≡ TickOf.unless_departed f n }
{
    let g = n.flight;
    if g.is_inside() {
        return n;
    }
    refused(Err(Refusal::Departure), f)
}

// The lag factors of a step.
pub fn begin(a: Airframe, step_s: f32, powers: &PowerTable) -> LagFactors
    ensures { result ≡ Promises.begin_of a step_s }
{
    lag_factors_from(a.lag_constants(), step_s, powers)
}

// The same by the lags' constants: an airframe in an array need not be read for them.
pub fn lag_factors_from(constants: LagConstants, step_s: f32, powers: &PowerTable) -> LagFactors
    ensures { result ≡ Promises.lag_factors_from constants step_s }
{
    LagFactors {
        step_bits: float::to_bits(step_s),
        motor: lag::factor(step_s, constants.motor_s, powers),
        servo: lag::factor(step_s, constants.servo_s, powers),
        lift: lift_factor(constants, step_s, powers),
    }
}

fn lift_factor(constants: LagConstants, step_s: f32, powers: &PowerTable) -> f32
    ensures { result ≡ Promises.lift_factor constants step_s }
{
    if constants.lift_present {
        return lag::factor(step_s, constants.lift_s, powers);
    }
    0.0
}

// The lag factors of a step; `held`, those of the last step, are reused while the step has the same bits.
pub fn cached_lag_factors(
    a: Airframe,
    held: LagFactors,
    step_s: f32,
    powers: &PowerTable,
) -> LagFactors
    requires { Promises.FactorsMatchStep a held }
    ensures value { result ≡ Promises.begin_of a step_s }
    ensures matches_step { Promises.FactorsMatchStep a result }
{
    if float::to_bits(step_s) == held.step_bits {
        return held;
    }
    begin(a, step_s, powers)
}

// The next state and its report, whatever the tests say, with the lag factors of the tick's step.
fn next_with(a: Airframe, f: Flight, t: Tick, lags: LagFactors, tables: &Tables) -> TickResult
    requires { lags ≡ Promises.begin_of a t.step_s }
    ensures { result ≡ TickOf.next_of a f t }
{
    let commands = t.motors;
    let servo_commands = t.servos;
    let motors = motors_of(a, f).spin(commands, lags.motor);
    let surfaces = surfaces_of(a, f).move_to(servo_commands, lags.servo);
    let lift_running = lift_spun(a, f, commands, lags.lift);
    let loaded = loads(
        a,
        motors,
        surfaces,
        lift_running,
        f.body(),
        t.wind_ned_mps,
        density_for(f, &tables.densities),
        &tables.powers,
    );
    let running = motors.running;
    let positions = surfaces.running;
    stepped(
        a.model,
        f,
        running,
        positions,
        lift_running,
        loaded,
        t.step_s,
    )
}

// The air's density at a state's height, which is its position down negated (02, 6).
fn density_for(f: Flight, densities: &DensityTable) -> f32
    ensures { result ≡ TickOf.density_for f }
{
    air::density_with(-f.down_m, densities)
}

// The lift rotors' running values after a step of their lag: each follows the motor command of its slot. Without lift numbers they
// are as they were.
fn lift_spun(a: Airframe, f: Flight, commands: [f32; 8], factor: f32) -> [f32; 8]
    ensures { result ≡ TickOf.lift_spun a f commands factor }
{
    let running = f.lift_motors;
    if a.lift_present {
        let lift = a.lift;
        return lift.spun(running, commands, factor);
    }
    running
}

// The airframe's motors at the state's running values and thrust scales.
fn motors_of(a: Airframe, f: Flight) -> Motors
    ensures { result ≡ LoadsOf.motors_for a f }
{
    let group = a.motors;
    let running = f.motors;
    let thrust_scale = f.thrust_scale;
    Motors {
        group,
        running,
        thrust_scale,
    }
}

// The airframe's surfaces at the state's running values.
fn surfaces_of(a: Airframe, f: Flight) -> Surfaces
    ensures { result ≡ LoadsOf.surfaces_for a f }
{
    let weights = a.weights;
    let running = f.servos;
    Surfaces { weights, running }
}

// The loads from the running values alone, in air of `density_kgpm3`; `lift_running` are the lift rotors'.
pub fn loads(
    a: Airframe,
    motors: Motors,
    surfaces: Surfaces,
    lift_running: [f32; 8],
    body: Body,
    wind_ned_mps: Vec3,
    density_kgpm3: f32,
    powers: &PowerTable,
) -> Loaded
    ensures { result ≡ LoadsOf.loads_of a motors surfaces lift_running body wind_ned_mps density_kgpm3 }
{
    let m = a.model;
    let attitude = body.attitude;
    let air_mps = attitude.inverse_transform_vector(body.air_relative_velocity_ned_mps(
        wind_ned_mps,
    ));
    let falloff = m.thrust_falloff;
    let pull = motors.wrench_with(falloff, air_mps.x, powers);
    let wash = wash_of(a, pull.thrust_n, air_mps.x, density_kgpm3);
    let deflection_rad = surfaces.deflection_rad(m.max_deflection_rad);
    let aero = aero::wrench(
        m,
        air_mps,
        body.angular_velocity_radps,
        deflection_rad,
        wash,
        density_kgpm3,
        powers,
    );
    let thrusting = with_thrust(m, pull, aero);
    let total = with_lift(a, lift_running, air_mps, thrusting, powers);
    loaded_by(attitude, total, aero, pull.thrust_n)
}

// All zeros where the airframe has no wash.
fn wash_of(a: Airframe, thrust_n: f32, axial_mps: f32, density_kgpm3: f32) -> Wash
    ensures { result ≡ LoadsOf.wash_for a thrust_n axial_mps density_kgpm3 }
{
    if a.wash_present {
        let wash = a.wash;
        return wash.wash(thrust_n, axial_mps, density_kgpm3);
    }
    tailsitter_model::no_wash()
}

// Aerodynamics, the thrust along body x, and its pitch torque by how far its line lies below the centre of gravity.
fn with_thrust(m: FixedWingModel, pull: motors::MotorWrench, aero: aero::Aero) -> Wrench
    ensures { result ≡ LoadsOf.with_thrust m pull aero }
{
    let force = aero.force_n;
    let torque = aero.torque_nm;
    let thrust_line_nm = Vec3::new(0.0, pull.thrust_n * m.thrust_line_below_cg_m, 0.0);
    let force_n = force + Vec3::new(pull.thrust_n, 0.0, 0.0);
    let torque_nm = torque + pull.torque_nm + thrust_line_nm;
    Wrench { force_n, torque_nm }
}

// Adds what the lift rotors do at their running values; without lift numbers that is nothing.
fn with_lift(
    a: Airframe,
    lift_running: [f32; 8],
    air_mps: Vec3,
    wrench: Wrench,
    powers: &PowerTable,
) -> Wrench
    ensures { result ≡ LoadsOf.with_lift a lift_running air_mps wrench }
{
    if a.lift_present {
        let lift = a.lift;
        return wrench.add(lift.wrench(lift_running, air_mps, powers));
    }
    wrench
}

// The force on NED axes, and what is reported: the thrust is that of the motors along body x alone.
fn loaded_by(
    attitude: vector::Quaternion,
    wrench: Wrench,
    aero: aero::Aero,
    thrust_n: f32,
) -> Loaded
    ensures { result ≡ LoadsOf.loaded_by attitude wrench aero thrust_n }
{
    let force_ned_n = attitude.transform_vector(wrench.force_n);
    let torque_nm = wrench.torque_nm;
    let damping_nm = Vec3::zeros();
    let loads = Loads {
        force_ned_n,
        torque_nm,
        damping_nm,
    };
    Loaded {
        loads,
        alpha_rad: aero.alpha_rad,
        beta_rad: aero.beta_rad,
        thrust_n,
    }
}

// The state after the body's step under the loads, its thrust scales as they were, and the report.
fn stepped(
    m: FixedWingModel,
    f: Flight,
    motors: [f32; 8],
    servos: [f32; 8],
    lift_motors: [f32; 8],
    loaded: Loaded,
    step_s: f32,
) -> TickResult
    ensures { result ≡ TickOf.stepped_of m f motors servos lift_motors loaded step_s }
{
    let inertia_kgm2 = m.inertia_kgm2;
    let mass = MassProperties {
        mass_kg: m.mass_kg,
        inertia_kgm2,
    };
    let before = f.body();
    let body = before.step(mass, loaded.loads, step_s);
    let scales = f.thrust_scale;
    let flight = Flight::of(body, motors, servos, scales, lift_motors);
    let report = Report {
        answer: Ok(()),
        alpha_rad: loaded.alpha_rad,
        beta_rad: loaded.beta_rad,
        thrust_n: loaded.thrust_n,
    };
    TickResult { report, flight }
}
