// A power with an exponent that need not be whole (02, 4).
ghost use Rattle.std.specs.Prelude.{◌≡◌};
ghost use Rattle.libm.specs.Pow as Pow;
ghost use Rattle.libm.specs.Powers as Powers;

use crate::exp::expf_with;
use crate::log::logf;
use crate::powers;
use crate::powers::PowerTable;

#[tactic(auto, unfolding(crate::specs::Pow::at_most_one))]
fn at_most_one(x: f32) -> f32
    ensures { result ≡ Pow.at_most_one x }
{
    if 1.0 < x { 1.0 } else { x }
}

// v to the power e for a v from 0 to 1, with the table of powers lent; a NaN for any other v.
pub fn powf_with(v: f32, e: f32, powers: &PowerTable) -> f32
    ensures { result ≡ Pow.pow_of v e }
{
    if v == 0.0 {
        return 0.0;
    }
    if float::inside(v, 0.0, 1.0) {
        return at_most_one(expf_with(e * logf(v), powers));
    }
    0.0 / 0.0
}

// The same with a table of its own, for a single answer.
pub fn powf(v: f32, e: f32) -> f32
    ensures { result ≡ Pow.pow_of v e }
{
    let powers = powers::powers_of_two();
    powf_with(v, e, &powers)
}
