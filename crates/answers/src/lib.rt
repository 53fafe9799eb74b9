// What the bench replies (01, "What the bench replies").
#![tactic(auto)]

ghost use Rattle.std.specs.Prelude.{◌≡◌};
ghost use Rattle.answers.specs.Answers as Answers;

// Why a call, a block or a tick is refused.
#[derive(Clone, Copy, Debug, PartialEq, Eq)]
pub enum Refusal {
    WrongLength,
    WrongVersion,
    WrongFalloff,
    ReservedBit,
    TooManyRows,
    // With the place of the number.
    NumberOutOfRange(u32),
    StateOutside,
    StepOutside,
    Departure,
    WindUnusable,
}

// A reply: done, or refused.
pub type Answer = Result<(), Refusal>;

impl Refusal {
    // The refusal's number.
    pub fn number(self) -> u32
        ensures { result ≡ Answers.refusal_number self }
    {
        match self {
            Refusal::WrongLength => 1,
            Refusal::WrongVersion => 2,
            Refusal::WrongFalloff => 3,
            Refusal::ReservedBit => 4,
            Refusal::TooManyRows => 5,
            Refusal::NumberOutOfRange(_) => 6,
            Refusal::StateOutside => 7,
            Refusal::StepOutside => 8,
            Refusal::Departure => 9,
            Refusal::WindUnusable => 10,
        }
    }

    // The place of an airframe number that is out of range; 0 for every other refusal.
    pub fn place(self) -> u32
        ensures { result ≡ Answers.refusal_place self }
    {
        match self {
            Refusal::NumberOutOfRange(place) => place,
            _ => 0,
        }
    }
}

// The reply's number, 0 where nothing was refused.
pub fn number(answer: Answer) -> u32
    ensures { result ≡ Answers.number_of answer }
{
    match answer {
        Ok(()) => 0,
        Err(refusal) => refusal.number(),
    }
}

// The reply's place, 0 where nothing was refused.
pub fn place(answer: Answer) -> u32
    ensures { result ≡ Answers.place_of answer }
{
    match answer {
        Ok(()) => 0,
        Err(refusal) => refusal.place(),
    }
}
