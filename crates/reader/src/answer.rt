// What an entry answers: a count or a refusal, and both as 01's four numbers.
ghost use Rattle.std.specs.Prelude.{◌≡◌, ◌≤◌};
ghost use Rattle.scan.specs.Refusals.{number_of, place_of};
ghost use Rattle.text.specs.Table.{unnamed};

use scan::refusal::Refusal;

// Which input is refused.
#[derive(Clone, Copy, Debug, PartialEq, Eq)]
pub enum Input {
    First = 1,
    Second = 2,
    Output = 3,
}

// A refusal, and of which input.
#[derive(Clone, Copy)]
pub struct Refused {
    pub refusal: Refusal,
    pub input: Input,
    ghost small: { place_of refusal ≤ unnamed },
}

// Number, input and place of a refusal, or number 0 and the count.
#[repr(C)]
#[derive(Clone, Copy)]
pub struct Answer {
    pub number: u32,
    pub input: u32,
    pub place: u32,
    pub count: u32,
}

impl From<Result<u32, Refused>> for Answer {
    ghost use Rattle.reader.specs.Answers.{answer_of, told};

    ghost from_gives = { λ r a. answer_of a ≡ told r };

    fn from(outcome: Result<u32, Refused>) -> Answer {
        match outcome {
            Ok(count) => Answer {
                number: 0,
                input: 0,
                place: 0,
                count,
            },
            Err(e) => Answer {
                number: e.refusal.number(),
                input: e.input as u32,
                place: e.refusal.place() as u32,
                count: 0,
            },
        }
    }
}
