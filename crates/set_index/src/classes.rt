// Classes of instructions, as a table sees them.
ghost use Rattle.std.specs.Prelude.{◌≡◌};
ghost use Rattle.encoding.specs.Steps.{loads as loads_of, sets_accu, is_conditional, is_plain, rests as rests_of};

use records::Instruction;
use records::instructions::is_jump;

// Words that load.
pub fn loads(n: u8) -> bool
    ensures { result ≡ loads_of n }
{
    matches!(
        Instruction::try_from(n),
        Ok(
            Instruction::Load
                | Instruction::Add
                | Instruction::Sub
                | Instruction::Mul
                | Instruction::Mem
        )
    )
}

// Words that change accu.
pub fn sets_accu(n: u8) -> bool
    ensures { result ≡ sets_accu n }
{
    loads(n)
        | matches!(
            Instruction::try_from(n),
            Ok(Instruction::Addi | Instruction::Subi | Instruction::Muli | Instruction::Cas)
        )
}

// Conditional jumps.
pub fn is_conditional(n: u8) -> bool
    ensures { result ≡ is_conditional n }
{
    is_jump(n) & (n != Instruction::Jmp.number())
}

// Jumps that are taken where their test holds; the others where it does not.
pub fn is_plain(n: u8) -> bool
    ensures { result ≡ is_plain n }
{
    matches!(
        Instruction::try_from(n),
        Ok(Instruction::Jz | Instruction::Js)
    )
}

// HALT and EXIT, whose pc stays.
pub fn rests(n: u8) -> bool
    ensures { result ≡ rests_of n }
{
    matches!(
        Instruction::try_from(n),
        Ok(Instruction::Halt | Instruction::Exit)
    )
}
