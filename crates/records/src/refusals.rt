// The numbered refusals, as document 01 numbers them, and the answer of a refused call.
ghost use Rattle.std.specs.Prelude.{◌≡◌};
ghost use Rattle.records.specs.Refusals.{number, of_call};

// What is wrong with what a call was given; include/deepchalk.h has the same names.
#[derive(Clone, Copy, Debug, PartialEq, Eq)]
pub enum Refusal {
    TextLength = 1,
    Malformed,
    Number,
    Threads,
    Statements,
    Label,
    Checkpoints,
    Map,
    Records,
    Bound,
    Room,
    NotPermitted,
    Differs,
    LacksCell,
    Model,
    NotSatisfied,
    Length,
}

// A refused call: the refusal, and the line, step or record that it names, 0 where it names none.
#[derive(Clone, Copy, Debug, PartialEq, Eq)]
pub struct Refused {
    pub refusal: Refusal,
    pub place: u32,
}

impl Refusal {
    // Its number in document 01.
    pub fn number(self) -> u8
        ensures { result ≡ number self }
    {
        self as u8
    }
}

// A refusal of the whole call names no place.
impl From<Refusal> for Refused {
    ghost from_gives = { λ refusal refused. refused ≡ of_call refusal };

    fn from(refusal: Refusal) -> Self {
        Refused { refusal, place: 0 }
    }
}
