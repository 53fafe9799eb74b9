// The lists, and what answers each.
use crate::numbers::{Answers, Inputs};
use crate::{actuators, modules};

#[derive(Clone, Copy)]
pub enum List {
    Sqrtf,
    Expf,
    Sinf,
    Cosf,
    Asinf,
    Atan2f,
    Logf,
    Powf,
    Density,
    LagFactor,
    ApproachSaturated,
    FalloffShare,
    StallBlend,
    PropWash,
    Rotate,
    BodyStep,
    Wrench,
    Motors,
    Lift,
    MotorRows,
    Surfaces,
}

impl List {
    // All lists, in the order of their replay.
    pub const ALL: [List; 21] = [
        List::Sqrtf,
        List::Expf,
        List::Sinf,
        List::Cosf,
        List::Asinf,
        List::Atan2f,
        List::Logf,
        List::Powf,
        List::Density,
        List::LagFactor,
        List::ApproachSaturated,
        List::FalloffShare,
        List::StallBlend,
        List::PropWash,
        List::Rotate,
        List::BodyStep,
        List::Wrench,
        List::Motors,
        List::Lift,
        List::MotorRows,
        List::Surfaces,
    ];

    // The file with its cases.
    pub fn path(self) -> &'static str {
        match self {
            List::Sqrtf => "sqrtf.txt",
            List::Expf => "expf.txt",
            List::Sinf => "sinf.txt",
            List::Cosf => "cosf.txt",
            List::Asinf => "asinf.txt",
            List::Atan2f => "atan2f.txt",
            List::Logf => "logf.txt",
            List::Powf => "powf.txt",
            List::Density => "density.txt",
            List::LagFactor => "lag_factor.txt",
            List::ApproachSaturated => "approach_saturated.txt",
            List::FalloffShare => "falloff_share.txt",
            List::StallBlend => "stall_blend.txt",
            List::PropWash => "wash.txt",
            List::Rotate => "rotate.txt",
            List::BodyStep => "body_step.txt",
            List::Wrench => "wrench.txt",
            List::Motors => "motors.txt",
            List::Lift => "lift.txt",
            List::MotorRows => "motor_rows.txt",
            List::Surfaces => "surfaces.txt",
        }
    }

    // The answers to the inputs at the front, which are read; `None` where they are too few.
    fn read(self, inputs: &mut Inputs) -> Option<Answers> {
        match self {
            List::Sqrtf => Some(Answers::one(libm::sqrtf(inputs.number()?))),
            List::Expf => Some(Answers::one(libm::expf(inputs.number()?))),
            List::Sinf => Some(Answers::one(libm::sinf(inputs.number()?))),
            List::Cosf => Some(Answers::one(libm::cosf(inputs.number()?))),
            List::Asinf => Some(Answers::one(libm::asinf(inputs.number()?))),
            List::Atan2f => Some(Answers::one(libm::atan2f(inputs.number()?, inputs.number()?))),
            List::Logf => Some(Answers::one(libm::logf(inputs.number()?))),
            List::Powf => Some(Answers::one(libm::powf(inputs.number()?, inputs.number()?))),
            List::Density => Some(Answers::one(air::density(inputs.number()?))),
            List::LagFactor => modules::lag_factor(inputs),
            List::ApproachSaturated => modules::approach_saturated(inputs),
            List::FalloffShare => modules::falloff_share(inputs),
            List::StallBlend => modules::stall_blend(inputs),
            List::PropWash => modules::wash(inputs),
            List::Rotate => modules::rotate(inputs),
            List::BodyStep => modules::body_step(inputs),
            List::Wrench => modules::wrench(inputs),
            List::Motors => actuators::motors(inputs),
            List::Lift => actuators::lift(inputs),
            List::MotorRows => actuators::motor_rows(inputs),
            List::Surfaces => actuators::surfaces(inputs),
        }
    }

    // The answers to the input words, where they are as many as the list has.
    pub fn answers(self, words: &[u32]) -> Option<Answers> {
        let mut inputs = Inputs::new(words);
        let answers = self.read(&mut inputs)?;
        inputs.is_empty().then_some(answers)
    }
}
