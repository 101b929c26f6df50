// The line of a step, from the bytes of its trace step, and the last line.
ghost use Rattle.std.specs.Prelude.{◌≡◌};
ghost use Rattle.records.specs.Instructions.{word_of};
ghost use Rattle.records.specs.Numbers.{number};
ghost use Rattle.listing_output.specs.Listings.{item as item_of, name as name_of, argument as argument_of, pair as pair_of, last_line, refused_line};
ghost use Rattle.listing_output.specs.Outputs.{Prints, act_at, registers_at, cell_shown, line_at};

use crate::output::{item, number, put};
use machine::{End, offsets};
use records::instructions::is_bare;
use records::{Instruction, Statement};

// The word of an instruction.
#[tactic(auto, unfolding(records::specs::Instructions::word_of, records::specs::Instructions::words))]
fn word_of(instruction: Instruction) -> &'static [u8]
    ensures { result.now ≡ word_of (number instruction) }
{
    match instruction {
        Instruction::Load => b"LOAD",
        Instruction::Store => b"STORE",
        Instruction::Fence => b"FENCE",
        Instruction::Add => b"ADD",
        Instruction::Addi => b"ADDI",
        Instruction::Sub => b"SUB",
        Instruction::Subi => b"SUBI",
        Instruction::Mul => b"MUL",
        Instruction::Muli => b"MULI",
        Instruction::Jmp => b"JMP",
        Instruction::Jz => b"JZ",
        Instruction::Jnz => b"JNZ",
        Instruction::Js => b"JS",
        Instruction::Jns => b"JNS",
        Instruction::Jnzns => b"JNZNS",
        Instruction::Mem => b"MEM",
        Instruction::Cas => b"CAS",
        Instruction::Halt => b"HALT",
        Instruction::Exit => b"EXIT",
        Instruction::Check => b"CHECK",
    }
}

// Prints the word of instruction n, or FLUSH; nothing past these.
fn name(out: &mut [u8], at: usize, n: u8) -> usize
    ensures { Prints at out.old (name_of n) result out.new }
{
    match Instruction::try_from(n) {
        Ok(instruction) => put(out, at, word_of(instruction)),
        Err(_) if n == Statement::INSTRUCTIONS => put(out, at, b"FLUSH"),
        Err(_) => put(out, at, b""),
    }
}

// Prints an argument: - for none, an indirect one in brackets.
fn argument(out: &mut [u8], at: usize, i: Statement) -> usize
    ensures { Prints at out.old (argument_of i) result out.new }
{
    if is_bare(i.number) | (i.number == Statement::INSTRUCTIONS) {
        return put(out, at, b"-");
    }
    if i.mode == 1 {
        let inside = put(out, at, b"[");
        let next = number(out, inside, i.argument);
        return put(out, next, b"]");
    }
    number(out, at, i.argument)
}

// Prints the word of instruction n or FLUSH, and the space after it.
fn word(out: &mut [u8], at: usize, n: u8) -> usize
    ensures { Prints at out.old (item_of (name_of n)) result out.new }
{
    let next = name(out, at, n);
    put(out, next, b" ")
}

// Prints thread, pc, word and argument of a trace step, each with the space after it.
fn act(out: &mut [u8], at: usize, step: &[u8]) -> usize
    ensures { Prints at out.old (act_at step.now) result out.new }
{
    let n = base::byte_at(step, offsets::NUMBER);
    let i = Statement {
        number: n,
        mode: base::byte_at(step, offsets::MODE),
        argument: base::word_at(step, offsets::ARGUMENT),
    };
    let thread = item(out, at, u16::from(base::byte_at(step, offsets::THREAD)));
    let pc = item(out, thread, base::word_at(step, offsets::PC));
    let named = word(out, pc, n);
    let next = argument(out, named, i);
    put(out, next, b" ")
}

// Prints accu, mem, adr, val and full of a trace step, each with the space after it.
fn registers(out: &mut [u8], at: usize, step: &[u8]) -> usize
    ensures { Prints at out.old (registers_at step.now) result out.new }
{
    let accu = item(out, at, base::word_at(step, offsets::ACCU));
    let mem = item(out, accu, base::word_at(step, offsets::MEM));
    let adr = item(out, mem, base::word_at(step, offsets::ADR));
    let val = item(out, adr, base::word_at(step, offsets::VAL));
    item(out, val, u16::from(base::byte_at(step, offsets::FULL)))
}

// Prints address and value of a written cell, between their brackets.
fn pair(out: &mut [u8], at: usize, address: u16, value: u16) -> usize
    ensures { Prints at out.old (pair_of address value) result out.new }
{
    let inside = put(out, at, b"{(");
    let first = number(out, inside, address);
    let comma = put(out, first, b",");
    let second = number(out, comma, value);
    put(out, second, b")}")
}

// Prints the cell that the step before a trace step wrote, {} if none.
fn cell(out: &mut [u8], at: usize, step: &[u8]) -> usize
    ensures { Prints at out.old (cell_shown step.now) result out.new }
{
    if base::byte_at(step, offsets::WROTE) == 1 {
        let address = base::word_at(step, offsets::ADDRESS);
        return pair(out, at, address, base::word_at(step, offsets::VALUE));
    }
    put(out, at, b"{}")
}

// Prints the line of a trace step.
pub fn line(out: &mut [u8], at: usize, step: &[u8]) -> usize
    ensures { Prints at out.old (line_at step.now) result out.new }
{
    let acted = act(out, at, step);
    let held = registers(out, acted, step);
    let wrote = cell(out, held, step);
    put(out, wrote, b"\n")
}

// Prints the last line of a run that was not refused.
pub fn last(out: &mut [u8], at: usize, end: End) -> usize
    ensures { Prints at out.old (last_line end) result out.new }
{
    match end {
        End::Code(code) => {
            let word = put(out, at, b"end ");
            let next = number(out, word, code);
            put(out, next, b"\n")
        }
        End::Stuck => put(out, at, b"stuck\n"),
        End::Open => put(out, at, b"open\n"),
    }
}

// Prints the last line of a refusal.
pub fn refusal(out: &mut [u8], at: usize, n: u8) -> usize
    ensures { Prints at out.old (refused_line n) result out.new }
{
    let word = put(out, at, b"refused ");
    let next = number(out, word, u16::from(n));
    put(out, next, b"\n")
}
