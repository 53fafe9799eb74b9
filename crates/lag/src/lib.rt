// 01, module 1: how running values follow their commands.
#![tactic(auto)]

ghost use Rattle.std.specs.Prelude.{◌≡◌};
ghost use Rattle.lag.specs.Lag as Lag;

use libm::PowerTable;

// How much of the way to its target a value goes in `h` seconds. `powers` is libm's table.
#[tactic(auto, unfolding(crate::specs::Lag::factor_of))]
pub fn factor(h: f32, time_constant_s: f32, powers: &PowerTable) -> f32
    ensures { result ≡ Lag.factor_of h time_constant_s }
{
    1.0 - libm::expf_with(-h / time_constant_s, powers)
}

// From `value` the part `alpha` of the way to `target`.
#[tactic(auto, unfolding(crate::specs::Lag::approach_of))]
fn approach(value: f32, target: f32, alpha: f32) -> f32
    ensures { result ≡ Lag.approach_of value target alpha }
{
    value + (target - value) * alpha
}

// The target: the command held within low..high, or `neutral` where it is NaN.
#[tactic(auto, unfolding(crate::specs::Lag::saturated))]
fn saturated(command: f32, low: f32, high: f32, neutral: f32) -> f32
    ensures { result ≡ Lag.saturated low high neutral command }
{
    if command != command {
        return neutral;
    }
    float::clamp(command, low, high)
}

// The approach to that target.
#[tactic(auto, unfolding(crate::specs::Lag::approach_saturated))]
pub fn approach_saturated(
    value: f32,
    command: f32,
    low: f32,
    high: f32,
    neutral: f32,
    alpha: f32,
) -> f32
    ensures { result ≡ Lag.approach_saturated value command low high neutral alpha }
{
    approach(value, saturated(command, low, high, neutral), alpha)
}
