// The table of instructions, row by row, on a thread's registers.
ghost use Rattle.std.specs.Prelude.{◌≡◌};
ghost use Rattle.machine.specs.Machine.{row as row_of, jumps as jumps_of};

use crate::Thread;
use records::Instruction;

// The least word whose top bit is set.
const TOP_BIT: u16 = 32768;

// Whether the jump numbered n is taken.
#[tactic(auto, unfolding(crate::specs::Machine::jumps))]
pub fn jumps(n: u8, accu: u16) -> bool
    ensures { result ≡ jumps_of n accu }
{
    match Instruction::try_from(n) {
        Ok(Instruction::Jmp) => true,
        Ok(Instruction::Jz) => accu == 0,
        Ok(Instruction::Jnz) => accu != 0,
        Ok(Instruction::Js) => TOP_BIT <= accu,
        Ok(Instruction::Jns) => accu < TOP_BIT,
        Ok(Instruction::Jnzns) => accu < TOP_BIT && accu != 0,
        _ => false,
    }
}

// The registers after statement number n, its pc apart: a is its address, w the word it takes.
#[tactic(auto, unfolding(crate::specs::Machine::row))]
pub fn row(n: u8, argument: u16, a: u16, w: u16, x: Thread) -> Thread
    ensures { result ≡ row_of n argument a w x }
{
    match Instruction::try_from(n) {
        Ok(Instruction::Load) => Thread { accu: w, ..x },
        Ok(Instruction::Store) => Thread {
            adr: a,
            val: x.accu,
            full: true,
            ..x
        },
        Ok(Instruction::Add) => Thread {
            accu: base::sum(x.accu, w),
            ..x
        },
        Ok(Instruction::Addi) => Thread {
            accu: base::sum(x.accu, argument),
            ..x
        },
        Ok(Instruction::Sub) => Thread {
            accu: base::difference(x.accu, w),
            ..x
        },
        Ok(Instruction::Subi) => Thread {
            accu: base::difference(x.accu, argument),
            ..x
        },
        Ok(Instruction::Mul) => Thread {
            accu: base::product(x.accu, w),
            ..x
        },
        Ok(Instruction::Muli) => Thread {
            accu: base::product(x.accu, argument),
            ..x
        },
        Ok(Instruction::Mem) => Thread {
            accu: w,
            mem: w,
            ..x
        },
        Ok(Instruction::Cas) => Thread {
            accu: u16::from(w == x.mem),
            ..x
        },
        Ok(Instruction::Halt) => Thread { halted: true, ..x },
        _ => x,
    }
}
