// What statements give.
ghost use Rattle.std.specs.Prelude.{◌≡◌, List, ℕ, ◌≤◌};
ghost use Rattle.records.specs.Sets.{Set};
ghost use Rattle.table.specs.Programs.{ref, unary, not1, binary, and2};
ghost use Rattle.encoding.specs.Slots.{Slot, slot, choice, active, address, loaded, swaps, result as result_kind, test, flag, accu, accu as accu_kind, bit_zero, word_zero, argument};
ghost use Rattle.encoding.specs.Steps.{base as base_of};
ghost use Rattle.encoder_slots.specs.Places.{place_of};
ghost use Rattle.encoder_bases.specs.SmallTrees.{Puts, load_of};
ghost use Rattle.table.specs.Repeats.{last_index};
ghost use Rattle.encoder_slots.specs.Pieces.{tree_room};

use crate::written::{
    Load, WrittenTree, put_at, put_binary, put_constant, put_load, put_none, put_one, put_three,
};
use encoder_slots::{Kind, place, start};
use records::{Instruction, Statement};
use table::{Formula, Operation, Sort};

// Where the flag of statement i of thread t lies; statement 0 is the next one at the start.
fn flag_place(slots: &[u32], t: u8, i: u16) -> u64
    ensures { result ≡ place_of slots.now (slot flag t i) }
{
    place(slots, Kind::Flag, t, i, u64::from(i == 0))
}

// Statement i of thread t executes; `executes` is where the choice that the thread executes lies.
pub fn put_active(
    slots: &[u32],
    out: &mut [u8],
    executes: u64,
    t: u8,
    i: u16,
    n: u32,
) -> WrittenTree
    ensures { (executes ≡ place_of slots.now (slot choice 0 t) → n ≤ last_index
        → Puts result (place_of slots.now) n (binary and2 (ref (slot flag t i)) (ref (slot choice 0 t))) out.old out.new) × (result.count ≤ tree_room) }
{
    let flag = flag_place(slots, t, i);
    put_binary(out, n, Operation::And, Sort::Bit, flag, executes)
}

// The address of a statement.
pub fn put_address(
    statement: Statement,
    slots: &[u32],
    out: &mut [u8],
    load: Load,
    t: u8,
    i: u16,
    n: u32,
) -> WrittenTree
    ensures { ((S : Set) (cs : List ℕ) (k : ℕ) → statement ≡ S.statement t i → load ≡ load_of (place_of slots.now) t → n ≤ last_index
        → Puts result (place_of slots.now) n (base_of S cs k address t i) out.old out.new) × (result.count ≤ tree_room) }
{
    if statement.mode == 1 {
        let argument = place(slots, Kind::Argument, t, i, start::WORD0);
        return put_load(out, load, argument, n);
    }
    put_none(slots, Kind::Argument, t, i, start::WORD0)
}

// The word that a statement loads; `nothing` is where that of others lies.
pub fn put_loaded(
    statement: Statement,
    slots: &[u32],
    out: &mut [u8],
    load: Load,
    nothing: u64,
    t: u8,
    i: u16,
    n: u32,
) -> WrittenTree
    ensures { ((S : Set) (cs : List ℕ) (k : ℕ) → statement ≡ S.statement t i → load ≡ load_of (place_of slots.now) t → nothing ≡ place_of slots.now (slot word_zero 0 0) → n ≤ last_index
        → Puts result (place_of slots.now) n (base_of S cs k loaded t i) out.old out.new) × (result.count ≤ tree_room) }
{
    let loads = set_index::loads(statement.number);
    if loads {
        let address = place(slots, Kind::Address, t, i, start::WORD0);
        return put_load(out, load, address, n);
    }
    put_at(nothing)
}

// A CAS that executes and matches; `nothing` is where the bit of others lies.
pub fn put_swaps(
    statement: Statement,
    slots: &[u32],
    out: &mut [u8],
    nothing: u64,
    t: u8,
    i: u16,
    n: u32,
) -> WrittenTree
    ensures { ((S : Set) (cs : List ℕ) (k : ℕ) → statement ≡ S.statement t i → nothing ≡ place_of slots.now (slot bit_zero 0 0) → n ≤ last_index
        → Puts result (place_of slots.now) n (base_of S cs k swaps t i) out.old out.new) × (result.count ≤ tree_room) }
{
    if statement.is(Instruction::Cas) {
        let k = u64::from(n);
        let memory = place(slots, Kind::SharedMemory, 0, 0, start::MEMORY);
        let address = place(slots, Kind::Address, t, i, start::WORD0);
        let mem = place(slots, Kind::Mem, t, 0, start::WORD0);
        let active = place(slots, Kind::Active, t, i, start::BIT0);
        let first = Formula::new(Operation::Read, Sort::Word, memory, address, 0);
        let second = Formula::new(Operation::Equal, Sort::Bit, k, mem, 0);
        let third = Formula::new(Operation::And, Sort::Bit, active, k + 1, 0);
        return put_three(out, n, first, second, third);
    }
    put_at(nothing)
}

// What accu becomes.
pub fn put_result(
    statement: Statement,
    slots: &[u32],
    out: &mut [u8],
    t: u8,
    i: u16,
    n: u32,
) -> WrittenTree
    ensures { ((S : Set) (cs : List ℕ) (k : ℕ) → statement ≡ S.statement t i → n ≤ last_index
        → Puts result (place_of slots.now) n (base_of S cs k result_kind t i) out.old out.new) × (result.count ≤ tree_room) }
{
    let accu = place(slots, Kind::Accu, t, 0, start::WORD0);
    let loaded = place(slots, Kind::Loaded, t, i, start::WORD0);
    let argument = place(slots, Kind::Argument, t, i, start::WORD0);
    let Ok(instruction) = Instruction::try_from(statement.number) else {
        return put_at(loaded);
    };
    match instruction {
        Instruction::Add => put_binary(out, n, Operation::Plus, Sort::Word, accu, loaded),
        Instruction::Addi => put_binary(out, n, Operation::Plus, Sort::Word, accu, argument),
        Instruction::Sub => put_binary(out, n, Operation::Minus, Sort::Word, accu, loaded),
        Instruction::Subi => put_binary(out, n, Operation::Minus, Sort::Word, accu, argument),
        Instruction::Mul => put_binary(out, n, Operation::Times, Sort::Word, accu, loaded),
        Instruction::Muli => put_binary(out, n, Operation::Times, Sort::Word, accu, argument),
        Instruction::Cas => {
            let swaps = place(slots, Kind::Swaps, t, i, start::BIT0);
            let word_one = place(slots, Kind::WordOne, 0, 0, start::WORD0);
            let zero = place(slots, Kind::WordZero, 0, 0, start::WORD0);
            put_one(out, n, Operation::If, Sort::Word, swaps, word_one, zero)
        }
        _ => put_at(loaded),
    }
}

// The test of a conditional jump, given where accu, the word 0 and the test of other statements lie.
pub fn put_test(
    statement: Statement,
    out: &mut [u8],
    accu: u64,
    zero: u64,
    nothing: u64,
    n: u32,
) -> WrittenTree
    ensures { ((S : Set) (cs : List ℕ) (k t i : ℕ) (at : Slot → ℕ) → statement ≡ S.statement t i → accu ≡ at (slot accu_kind t 0) → zero ≡ at (slot word_zero 0 0) → nothing ≡ at (slot bit_zero 0 0) → n ≤ last_index
        → Puts result at n (base_of S cs k test t i) out.old out.new) × (result.count ≤ tree_room) }
{
    if statement.is(Instruction::Jz) | statement.is(Instruction::Jnz) {
        return put_binary(out, n, Operation::Equal, Sort::Bit, accu, zero);
    }
    if statement.is(Instruction::Js) | statement.is(Instruction::Jns) {
        return put_one(out, n, Operation::Top, Sort::Bit, accu, 0, 0);
    }
    if statement.is(Instruction::Jnzns) {
        let k = u64::from(n);
        let first = Formula::new(Operation::Top, Sort::Bit, accu, 0, 0);
        let second = Formula::new(Operation::Equal, Sort::Bit, accu, zero, 0);
        let third = Formula::new(Operation::Or, Sort::Bit, k, k + 1, 0);
        return put_three(out, n, first, second, third);
    }
    put_at(nothing)
}

// The test of statement i of thread t, a conditional jump, does not hold.
pub fn put_not_test(slots: &[u32], out: &mut [u8], t: u8, i: u16, n: u32) -> WrittenTree
    ensures { (n ≤ last_index → Puts result (place_of slots.now) n (unary not1 (ref (slot test t i))) out.old out.new) × (result.count ≤ tree_room) }
{
    let holds = place(slots, Kind::Test, t, i, start::BIT0);
    put_one(out, n, Operation::Not, Sort::Bit, holds, 0, 0)
}

// Statement i of thread t is the next one unless the thread executes; HALT and EXIT stay. `executes` and `zero` are where the choice and bit 0 lie.
pub fn put_flag(
    statement: Statement,
    slots: &[u32],
    out: &mut [u8],
    executes: u64,
    zero: u64,
    t: u8,
    i: u16,
    n: u32,
) -> WrittenTree
    ensures { ((S : Set) (cs : List ℕ) (k : ℕ) → statement ≡ S.statement t i → executes ≡ place_of slots.now (slot choice 0 t) → zero ≡ place_of slots.now (slot bit_zero 0 0) → n ≤ last_index
        → Puts result (place_of slots.now) n (base_of S cs k flag t i) out.old out.new) × (result.count ≤ tree_room) }
{
    let rests = set_index::rests(statement.number);
    if rests {
        return put_none(slots, Kind::Flag, t, i, u64::from(i == 0));
    }
    let flag = flag_place(slots, t, i);
    put_one(out, n, Operation::If, Sort::Bit, executes, zero, flag)
}

// The argument of a statement.
pub fn put_argument(statement: Statement, out: &mut [u8], n: u32) -> WrittenTree
    ensures { ((S : Set) (at : Slot → ℕ) (cs : List ℕ) (k t i : ℕ) → statement ≡ S.statement t i → Puts result at n (base_of S cs k argument t i) out.old out.new) × (result.count ≤ tree_room) }
{
    put_constant(out, n, statement.argument)
}
