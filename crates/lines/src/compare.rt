// Whether two ticks mirror each other, as numbers: zeros alike, NaNs alike. (No derived `==`, to which a NaN is unlike itself.)
ghost use Rattle.std.specs.Prelude.{◌≡◌};
ghost use Rattle.ordered.specs.Ordered.{all_pass};
ghost use Rattle.lines.specs.Compare as Compare;

use body::Body;
use flight::Flight;
use vector::{Quaternion, Vec3};
use wing::{Report, TickResult};

#[tactic(auto, unfolding(crate::specs::Compare::same_number))]
fn same(x: f32, y: f32) -> bool
    ensures { result ≡ Compare.same_number x y }
{
    if x != x {
        return y != y;
    }
    x == y
}

#[tactic(auto, unfolding(crate::specs::Compare::same_vec))]
fn same_vec(v: Vec3, w: Vec3) -> bool
    ensures { result ≡ Compare.same_vec v w }
{
    same(v.x, w.x) && same(v.y, w.y) && same(v.z, w.z)
}

#[tactic(auto, unfolding(crate::specs::Compare::same_attitude))]
fn same_attitude(p: Quaternion, q: Quaternion) -> bool
    ensures { result ≡ Compare.same_attitude p q }
{
    same(p.w, q.w) && same(p.i, q.i) && same(p.j, q.j) && same(p.k, q.k)
}

fn same_slots(xs: [f32; 8], ys: [f32; 8]) -> bool
    ensures { result ≡ all_pass (Compare.same_slot xs ys) 8 }
{
    let mut ok = true;
    for i in 0..8 {
        ok = ok && same(xs[i], ys[i]);
    }
    ok
}

#[tactic(auto, unfolding(crate::specs::Compare::same_body))]
fn same_body(b: Body, c: Body) -> bool
    ensures { result ≡ Compare.same_body b c }
{
    same_vec(b.position_ned_m, c.position_ned_m)
        && same_vec(b.velocity_ned_mps, c.velocity_ned_mps)
        && same_attitude(b.attitude, c.attitude)
        && same_vec(b.angular_velocity_radps, c.angular_velocity_radps)
}

#[tactic(auto, unfolding(crate::specs::Compare::same_flight))]
fn same_flight(f: Flight, g: Flight) -> bool
    ensures { result ≡ Compare.same_flight f g }
{
    same_body(f.body(), g.body())
        && same_slots(f.motors, g.motors)
        && same_slots(f.servos, g.servos)
        && same_slots(f.thrust_scale, g.thrust_scale)
        && same_slots(f.lift_motors, g.lift_motors)
}

// The same answer, alpha and thrust; beta negated.
#[tactic(auto, unfolding(crate::specs::Compare::mirrored_report))]
fn mirrored_report(x: Report, y: Report) -> bool
    ensures { result ≡ Compare.mirrored_report x y }
{
    answers::number(x.answer) == answers::number(y.answer)
        && same(x.alpha_rad, y.alpha_rad)
        && same(x.thrust_n, y.thrust_n)
        && same(-x.beta_rad, y.beta_rad)
}

// Whether y is what the tick of x gives in the reflection.
#[tactic(auto, unfolding(crate::specs::Compare::mirrored_tick))]
pub fn is_mirrored(x: TickResult, y: TickResult) -> bool
    ensures { result ≡ Compare.mirrored_tick x y }
{
    mirrored_report(x.report, y.report) && same_flight(x.flight.reflected(), y.flight)
}
