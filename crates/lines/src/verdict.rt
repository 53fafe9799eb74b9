// What is said of a flight and its reflection.
ghost use Rattle.std.specs.Prelude.{◌≡◌};
ghost use Rattle.lines.specs.Tracks.{tick_or_0};
ghost use Rattle.lines.specs.Verdict.{verdict_of};

use std::num::NonZeroU64;

#[derive(Clone, Copy)]
pub enum Verdict {
    // No tick was accepted, so that nothing was compared.
    NoneAccepted,
    // All ticks of the input mirror.
    Mirror,
    // All its whole ticks do; the last one is cut short.
    MirrorSoFar,
    // The first tick that does not.
    DifferFrom(u64),
}

// By how many ticks the flight accepted, the first that does not mirror, and whether the last tick is cut short.
#[tactic(auto, unfolding(crate::specs::Verdict::verdict_of))]
pub fn verdict_of(accepted: u64, differs: Option<NonZeroU64>, cut: bool) -> Verdict
    ensures { result ≡ verdict_of accepted (tick_or_0 differs) cut }
{
    match differs {
        Some(tick) => Verdict::DifferFrom(tick.get()),
        None if accepted == 0 => Verdict::NoneAccepted,
        None if cut => Verdict::MirrorSoFar,
        None => Verdict::Mirror,
    }
}
