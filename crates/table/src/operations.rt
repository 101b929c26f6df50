// The operations and sorts of formula records, as document 01 numbers them.
ghost use Rattle.std.specs.Prelude.{◌≡◌, ◌↔◌};
ghost use Rattle.table.specs.Operations.{operation_number, Decodes};

// What a record computes from its operands, or says of one.
#[derive(Clone, Copy, Debug, PartialEq, Eq)]
pub enum Operation {
    Choice = 1,
    First,
    Constant,
    Not,
    And,
    Or,
    Equal,
    If,
    Plus,
    Minus,
    Times,
    Read,
    Write,
    Top,
    Constraint,
    Goal,
}

// A byte that numbers no operation.
#[derive(Clone, Copy, Debug, PartialEq, Eq)]
pub struct UnknownOperation(pub u8);

impl TryFrom<u8> for Operation {
    type Error = UnknownOperation;

    ghost try_from_gives = { Decodes };

    fn try_from(number: u8) -> Result<Self, UnknownOperation> {
        match number {
            1 => Ok(Operation::Choice),
            2 => Ok(Operation::First),
            3 => Ok(Operation::Constant),
            4 => Ok(Operation::Not),
            5 => Ok(Operation::And),
            6 => Ok(Operation::Or),
            7 => Ok(Operation::Equal),
            8 => Ok(Operation::If),
            9 => Ok(Operation::Plus),
            10 => Ok(Operation::Minus),
            11 => Ok(Operation::Times),
            12 => Ok(Operation::Read),
            13 => Ok(Operation::Write),
            14 => Ok(Operation::Top),
            15 => Ok(Operation::Constraint),
            16 => Ok(Operation::Goal),
            _ => Err(UnknownOperation(number)),
        }
    }
}

// What a record's value is.
#[derive(Clone, Copy, Debug, PartialEq, Eq)]
pub enum Sort {
    None,
    Bit,
    Word,
    Memory,
}
