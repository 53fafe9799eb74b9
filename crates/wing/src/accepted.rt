// An airframe that is accepted.
ghost use Rattle.std.specs.Prelude.{IfErr, IfOk, ◌≡◌};
ghost use Rattle.airframe.specs.Acceptance.{refused_place};
ghost use Rattle.wing.specs.Promises.{RefusedBy};

use airframe::Airframe;
use answers::Refusal;

// An airframe of which it is known that each of its numbers is in range.
#[derive(Clone, Copy)]
pub struct Accepted {
    pub airframe: Airframe,
    pub ghost is_accepted: { refused_place airframe ≡ 0 },
}

impl Accepted {
    // The airframe where it is accepted, or else the refusal of its lowest place out of range.
    pub fn of(airframe: Airframe) -> Result<Accepted, Refusal>
        ensures accepted { IfOk result (λ x. x.airframe ≡ airframe) }
        ensures refused { IfErr result (λ refusal. RefusedBy airframe refusal) }
    {
        match airframe.refused_place() {
            Some(place) => Err(Refusal::NumberOutOfRange(place)),
            None => Ok(Accepted { airframe }),
        }
    }
}
