// The twenty instructions by number, with their words and classes.
ghost use Rattle.std.specs.Prelude.{◌≡◌, MatchOption, All, true, false};
ghost use Rattle.base.specs.Below.{least};
ghost use Rattle.base.specs.Bytes.{same};
ghost use Rattle.records.specs.Instructions.{word_of, is_memory, is_jump, is_bare, is_last};
ghost use Rattle.records.specs.Numbers.{number, Numbered};

// The instructions, by number from 0.
#[derive(Clone, Copy, Debug, PartialEq, Eq)]
pub enum Instruction {
    Load,
    Store,
    Fence,
    Add,
    Addi,
    Sub,
    Subi,
    Mul,
    Muli,
    Jmp,
    Jz,
    Jnz,
    Js,
    Jns,
    Jnzns,
    Mem,
    Cas,
    Halt,
    Exit,
    Check,
}

// A number that names no instruction.
#[derive(Clone, Copy, Debug, PartialEq, Eq)]
pub struct NoInstruction(pub u8);

impl Instruction {
    // All of them, in the order of their numbers.
    pub const ALL: [Instruction; 20] = [
        Instruction::Load,
        Instruction::Store,
        Instruction::Fence,
        Instruction::Add,
        Instruction::Addi,
        Instruction::Sub,
        Instruction::Subi,
        Instruction::Mul,
        Instruction::Muli,
        Instruction::Jmp,
        Instruction::Jz,
        Instruction::Jnz,
        Instruction::Js,
        Instruction::Jns,
        Instruction::Jnzns,
        Instruction::Mem,
        Instruction::Cas,
        Instruction::Halt,
        Instruction::Exit,
        Instruction::Check,
    ];

    // Its number in document 01.
    pub fn number(self) -> u8
        ensures { result ≡ number self }
    {
        self as u8
    }

    // Its word in a text and in a listing.
    #[tactic(auto, unfolding(crate::specs::Instructions::words, crate::specs::Instructions::word_of))]
    pub fn word(self) -> &'static [u8]
        ensures { result.now ≡ word_of (number self) }
    {
        match self {
            Instruction::Load => b"LOAD",
            Instruction::Store => b"STORE",
            Instruction::Fence => b"FENCE",
            Instruction::Add => b"ADD",
            Instruction::Addi => b"ADDI",
            Instruction::Sub => b"SUB",
            Instruction::Subi => b"SUBI",
            Instruction::Mul => b"MUL",
            Instruction::Muli => b"MULI",
            Instruction::Jmp => b"JMP",
            Instruction::Jz => b"JZ",
            Instruction::Jnz => b"JNZ",
            Instruction::Js => b"JS",
            Instruction::Jns => b"JNS",
            Instruction::Jnzns => b"JNZNS",
            Instruction::Mem => b"MEM",
            Instruction::Cas => b"CAS",
            Instruction::Halt => b"HALT",
            Instruction::Exit => b"EXIT",
            Instruction::Check => b"CHECK",
        }
    }

    // The instruction whose word is w. Its first letter leaves one to six words to compare it with.
    pub fn named(w: &[u8]) -> Option<Instruction>
        ensures { let n = least 20 (λ n. same w.now (word_of n)) in MatchOption result (n ≡ 20) (λ i. n ≡ number i) }
    {
        match base::byte_at(w, 0) {
            b'A' => one_of(w, &[Instruction::Add, Instruction::Addi]),
            b'C' => one_of(w, &[Instruction::Cas, Instruction::Check]),
            b'E' => one_of(w, &[Instruction::Exit]),
            b'F' => one_of(w, &[Instruction::Fence]),
            b'H' => one_of(w, &[Instruction::Halt]),
            b'J' => one_of(
                w,
                &[
                    Instruction::Jmp,
                    Instruction::Jz,
                    Instruction::Jnz,
                    Instruction::Js,
                    Instruction::Jns,
                    Instruction::Jnzns,
                ],
            ),
            b'L' => one_of(w, &[Instruction::Load]),
            b'M' => one_of(w, &[Instruction::Mul, Instruction::Muli, Instruction::Mem]),
            b'S' => one_of(
                w,
                &[Instruction::Store, Instruction::Sub, Instruction::Subi],
            ),
            _ => None,
        }
    }
}

// The first of some instructions whose word is w.
fn one_of(w: &[u8], some: &[Instruction]) -> Option<Instruction>
    ensures { MatchOption result (All (λ i. same w.now (word_of (number i)) ≡ false) some.now) (λ i. same w.now (word_of (number i)) ≡ true) }
{
    some.iter().copied().find(|i| w == i.word())
}

impl TryFrom<u8> for Instruction {
    type Error = NoInstruction;

    ghost try_from_gives = { Numbered };

    fn try_from(number: u8) -> Result<Self, NoInstruction> {
        match number {
            0 => Ok(Instruction::Load),
            1 => Ok(Instruction::Store),
            2 => Ok(Instruction::Fence),
            3 => Ok(Instruction::Add),
            4 => Ok(Instruction::Addi),
            5 => Ok(Instruction::Sub),
            6 => Ok(Instruction::Subi),
            7 => Ok(Instruction::Mul),
            8 => Ok(Instruction::Muli),
            9 => Ok(Instruction::Jmp),
            10 => Ok(Instruction::Jz),
            11 => Ok(Instruction::Jnz),
            12 => Ok(Instruction::Js),
            13 => Ok(Instruction::Jns),
            14 => Ok(Instruction::Jnzns),
            15 => Ok(Instruction::Mem),
            16 => Ok(Instruction::Cas),
            17 => Ok(Instruction::Halt),
            18 => Ok(Instruction::Exit),
            19 => Ok(Instruction::Check),
            _ => Err(NoInstruction(number)),
        }
    }
}

// Memory words, which may be indirect.
pub fn is_memory(n: u8) -> bool
    ensures { result ≡ is_memory n }
{
    matches!(
        Instruction::try_from(n),
        Ok(
            Instruction::Load
                | Instruction::Store
                | Instruction::Add
                | Instruction::Sub
                | Instruction::Mul
                | Instruction::Mem
                | Instruction::Cas
        )
    )
}

// Jumps, whose argument is a pc.
pub fn is_jump(n: u8) -> bool
    ensures { result ≡ is_jump n }
{
    matches!(
        Instruction::try_from(n),
        Ok(
            Instruction::Jmp
                | Instruction::Jz
                | Instruction::Jnz
                | Instruction::Js
                | Instruction::Jns
                | Instruction::Jnzns
        )
    )
}

// Words without an argument.
pub fn is_bare(n: u8) -> bool
    ensures { result ≡ is_bare n }
{
    matches!(
        Instruction::try_from(n),
        Ok(Instruction::Fence | Instruction::Halt)
    )
}

// What a thread may end in.
pub fn is_last(n: u8) -> bool
    ensures { result ≡ is_last n }
{
    matches!(
        Instruction::try_from(n),
        Ok(Instruction::Exit | Instruction::Jmp | Instruction::Halt)
    )
}
