ghost use Rattle.std.specs.Prelude.{ℕ};
ghost use Rattle.encoder_slots.specs.Kinds.{number_of};
ghost use Rattle.encoder_slots.specs.Numbered.{Numbered};

// The kinds of a table's values; those before `BitZero` are in the order in which a step sets them.
#[derive(Clone, Copy, Debug, PartialEq, Eq)]
pub enum Kind {
    Choice,
    Active,
    Opening,
    Shut,
    Barred,
    Held,
    Waits,
    MayExecute,
    None,
    PermittedFirst,
    OnePermitted,
    Address,
    Loaded,
    Swaps,
    Result,
    Test,
    NotTest,
    FlushTo,
    WriteTo,
    FlushValue,
    WriteValue,
    Raised,
    Exits,
    Codes,
    SharedMemory,
    Val,
    Adr,
    Mem,
    Accu,
    Full,
    Halted,
    Flag,
    Mark,
    Halts,
    Ended,
    Code,
    BitZero,
    BitOne,
    WordZero,
    WordOne,
    Argument,
}

impl Kind {
    // How many kinds there are.
    pub const COUNT: usize = 41;
}

// A number that names no kind.
#[derive(Clone, Copy, Debug, PartialEq, Eq)]
pub struct NoKind(pub u8);

impl TryFrom<u8> for Kind {
    type Error = NoKind;

    ghost try_from_gives = { Numbered };

    fn try_from(number: u8) -> Result<Self, NoKind> {
        match number {
            0 => Ok(Kind::Choice),
            1 => Ok(Kind::Active),
            2 => Ok(Kind::Opening),
            3 => Ok(Kind::Shut),
            4 => Ok(Kind::Barred),
            5 => Ok(Kind::Held),
            6 => Ok(Kind::Waits),
            7 => Ok(Kind::MayExecute),
            8 => Ok(Kind::None),
            9 => Ok(Kind::PermittedFirst),
            10 => Ok(Kind::OnePermitted),
            11 => Ok(Kind::Address),
            12 => Ok(Kind::Loaded),
            13 => Ok(Kind::Swaps),
            14 => Ok(Kind::Result),
            15 => Ok(Kind::Test),
            16 => Ok(Kind::NotTest),
            17 => Ok(Kind::FlushTo),
            18 => Ok(Kind::WriteTo),
            19 => Ok(Kind::FlushValue),
            20 => Ok(Kind::WriteValue),
            21 => Ok(Kind::Raised),
            22 => Ok(Kind::Exits),
            23 => Ok(Kind::Codes),
            24 => Ok(Kind::SharedMemory),
            25 => Ok(Kind::Val),
            26 => Ok(Kind::Adr),
            27 => Ok(Kind::Mem),
            28 => Ok(Kind::Accu),
            29 => Ok(Kind::Full),
            30 => Ok(Kind::Halted),
            31 => Ok(Kind::Flag),
            32 => Ok(Kind::Mark),
            33 => Ok(Kind::Halts),
            34 => Ok(Kind::Ended),
            35 => Ok(Kind::Code),
            36 => Ok(Kind::BitZero),
            37 => Ok(Kind::BitOne),
            38 => Ok(Kind::WordZero),
            39 => Ok(Kind::WordOne),
            40 => Ok(Kind::Argument),
            _ => Err(NoKind(number)),
        }
    }
}

// What names a kind: the kind itself, or its number.
pub trait NamesKind {
    ghost number: { Self → ℕ };

    // The kind; the number where it names none.
    fn kind(self) -> Result<Kind, NoKind>
        ensures { Numbered (number self) result };
}

impl NamesKind for Kind {
    ghost number = { number_of };

    fn kind(self) -> Result<Kind, NoKind> {
        Ok(self)
    }
}

impl NamesKind for u8 {
    ghost number = { λ n. n };

    fn kind(self) -> Result<Kind, NoKind> {
        Kind::try_from(self)
    }
}
