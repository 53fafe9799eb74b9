// The lent rows (01, "Which places take which form"): one walk over a slice fills both groups' torques and the servos' factors.
// The array form, `mixers::Rows`, stays.
#![tactic(auto)]

ghost use Rattle.std.specs.Prelude.{◌≡◌, ◌≤◌, take};
ghost use Rattle.mixers.specs.Rows.{most_rows};
ghost use Rattle.motors.specs.Motor.{group_of, lift_group_of};
ghost use Rattle.surfaces.specs.Surface.{surfaces_of};
ghost use Rattle.lent_rows.specs.Mixing.{start_of, put_row, mix_from, mix_of, surfaces_in};

use mixers::{MOST_ROWS, MixRow, Rows};
use motors::{MotorGroup, MotorLayout};
use surfaces::{Factors, Surfaces};
use vector::Vec3;

// What the rows read so far fill.
#[derive(Clone, Copy)]
pub struct Mix {
    pub motors: MotorGroup,
    pub lift: MotorGroup,
    pub factors: Factors,
}

impl Mix {
    // No row yet: no motor, no lift rotor and no servo is driven.
    pub fn start(
        layout: MotorLayout,
        time_constant_s: f32,
        lift_layout: MotorLayout,
        lift_time_constant_s: f32,
    ) -> Self
        ensures { result ≡ start_of layout time_constant_s lift_layout lift_time_constant_s }
    {
        let motors = MotorGroup::empty(layout, time_constant_s);
        let lift = MotorGroup::empty(lift_layout, lift_time_constant_s);
        let factors = Factors {
            at: [Vec3::zeros(); 8],
        };
        Mix {
            motors,
            lift,
            factors,
        }
    }

    // One row: a motor's or a lift rotor's torque or a servo's factors, in place of what an earlier row of its kind set.
    pub fn put(self, row: MixRow) -> Self
        ensures { result ≡ put_row self row }
    {
        let motors = self.motors.put(row);
        let lift = self.lift.put_lift(row);
        let factors = self.factors.put(row);
        Mix {
            motors,
            lift,
            factors,
        }
    }

    // The servos of the rows read, with their weights. Servos start centered.
    pub fn surfaces(self) -> Surfaces
        ensures { result ≡ surfaces_in self }
    {
        let factors = self.factors;
        let at = factors.at;
        let weights = surfaces::weighed(at);
        let running = [0.0; 8];
        Surfaces { weights, running }
    }
}

// The rows of a lent list, put one after the other.
pub fn fill_from_slice(rows: &[MixRow], start: Mix) -> Mix
    ensures { result ≡ mix_from start rows.now }
{
    let mut m = start;
    for row in rows {
        m = m.put(*row);
    }
    m
}

// The same by value: the first `count` rows of an array are lent. `count` is what `Rows::live` gives, which promises the bound.
fn fill_from_array(list: [MixRow; MOST_ROWS], count: usize, start: Mix) -> Mix
    requires { count ≤ most_rows }
    ensures { result ≡ mix_from start (take count list) }
{
    let all = list;
    fill_from_slice(&all[..count], start)
}

// The rows of the array form, lent and walked once: they fill what the array form fills.
pub fn fill_from_rows(
    rows: Rows,
    layout: MotorLayout,
    time_constant_s: f32,
    lift_layout: MotorLayout,
    lift_time_constant_s: f32,
) -> Mix
    ensures value { result ≡ mix_of rows layout time_constant_s lift_layout lift_time_constant_s }
    ensures motors_value { result.motors ≡ group_of rows layout time_constant_s }
    ensures lift_value { result.lift ≡ lift_group_of rows lift_layout lift_time_constant_s }
    ensures result_value { surfaces_in result ≡ surfaces_of rows }
{
    let list = rows.rows;
    let count = rows.live();
    let start = Mix::start(layout, time_constant_s, lift_layout, lift_time_constant_s);
    fill_from_array(list, count, start)
}
