// 01, module 3: servos and what they deflect.
#![tactic(auto)]

ghost use Rattle.std.specs.Prelude.{◌≡◌};
ghost use Rattle.surfaces.specs.Surface as Surface;

use mixers::{MixRow, Rows, Slot};
use std::array;
use vector::Vec3;

// All 8 servos. An axis takes each of them by its weight, so that servos which stand at their factors deflect it fully.
#[derive(Clone, Copy)]
pub struct Surfaces {
    // By slot, for roll, pitch and yaw: its factor times the inverse of the axis's squares; 0 where these are 0.
    pub weights: [Vec3; 8],
    // The running values, -1..1.
    pub running: [f32; 8],
}

// What the servo rows say, by slot.
#[derive(Clone, Copy)]
pub struct Factors {
    pub at: [Vec3; 8],
}

impl Surfaces {
    // From the rows of an airframe as a fixed form, with all servos at 0; `Mix::surfaces` is the same from the lent list.
    pub fn new(rows: Rows) -> Self
        ensures { result ≡ Surface.surfaces_of rows }
    {
        let weights = weighed(factors_of(rows));
        let running = [0.0; 8];
        Surfaces { weights, running }
    }

    // A step of the lag of all 8 servos: a command is held within -1..1, and NaN is 0.
    pub fn move_to(mut self, commands: [f32; 8], factor: f32) -> Self
        ensures { result ≡ Surface.move_to self commands factor }
    {
        let running = array::from_fn(|i| {
            lag::approach_saturated(self.running[i], commands[i], -1.0, 1.0, 0.0, factor)
        });
        self.running = running;
        self
    }

    // Aileron, elevator and rudder as x, y and z, in rad: the weighed sums times `max_deflection_rad`.
    pub fn deflection_rad(self, max_deflection_rad: Vec3) -> Vec3
        ensures { result ≡ Surface.deflection_rad self max_deflection_rad }
    {
        let mut unit = Vec3::zeros();
        for (i, weight) in self.weights.iter().enumerate() {
            unit = unit + *weight * self.running[i];
        }
        unit.component_mul(max_deflection_rad)
    }
}

// Of several rows for one slot the last counts.
fn factors_of(rows: Rows) -> [Vec3; 8]
    ensures { result ≡ Surface.factors_of rows }
{
    let mut factors = Factors {
        at: [Vec3::zeros(); 8],
    };
    for row in &rows.rows[..rows.live()] {
        factors = factors.put(*row);
    }
    factors.at
}

impl Factors {
    // Takes in a row, where it is a servo's.
    pub fn put(self, row: MixRow) -> Self
        ensures { result ≡ Surface.put_servo_row self row }
    {
        let slot = row.slot;
        match slot {
            Slot::Servo(index) => self.put_servo(index as usize, row.factors()),
            Slot::Motor(_) => self,
            Slot::Lift(_) => self,
        }
    }

    fn put_servo(mut self, index: usize, factors: Vec3) -> Self
        ensures { result ≡ Surface.put_servo self index factors }
    {
        if index < 8 {
            let mut at = self.at;
            at[index] = factors;
            self.at = at;
            return self;
        }
        self
    }
}

// Each slot's factors over the sums of their squares, axis by axis.
pub fn weighed(factors: [Vec3; 8]) -> [Vec3; 8]
    ensures { result ≡ Surface.weighed factors }
{
    let squares = squares_of(factors);
    let inverse = Vec3::new(
        inverse_or_zero(squares.x),
        inverse_or_zero(squares.y),
        inverse_or_zero(squares.z),
    );
    factors.map(|f| f.component_mul(inverse))
}

// The sums of the squared factors over the slots, axis by axis.
fn squares_of(factors: [Vec3; 8]) -> Vec3
    ensures { result ≡ Surface.squares_of factors }
{
    let mut sum = Vec3::zeros();
    for f in factors {
        sum = sum + f.component_mul(f);
    }
    sum
}

// 1 over an axis's sum; 0 where the sum is 0.
fn inverse_or_zero(sum: f32) -> f32
    ensures { result ≡ Surface.inverse_or_zero sum }
{
    if sum > 0.0 { 1.0 / sum } else { 0.0 }
}
