// The values of marks, threads and the machine.
ghost use Rattle.std.specs.Prelude.{◌+◌, ◌≤◌};
ghost use Rattle.table.specs.Programs.{ref, unary, binary, ternary, not1, and2, or2, read2, if3, write3};
ghost use Rattle.encoding.specs.Slots.{slot, choice, opening, barred, waits, write_to, write_value, shared_memory, full, bit_zero};
ghost use Rattle.encoder_slots.specs.Places.{place_of};
ghost use Rattle.encoder_bases.specs.SmallTrees.{Puts};
ghost use Rattle.table.specs.Repeats.{last_index};
ghost use Rattle.encoder_slots.specs.Pieces.{tree_room};

use crate::written::{WrittenTree, put_binary, put_one, put_three};
use encoder_slots::{Kind, place, start};
use table::{Formula, Operation, Sort};

// Checkpoint p is not open.
pub fn put_shut(slots: &[u32], out: &mut [u8], p: u16, n: u32) -> WrittenTree
    ensures { (Puts result (place_of slots.now) n (unary not1 (ref (slot opening 0 p))) out.old out.new) × (result.count ≤ tree_room) }
{
    let opening = place(slots, Kind::Opening, 0, p, start::BIT0);
    put_one(out, n, Operation::Not, Sort::Bit, opening, 0, 0)
}

// Thread t may execute.
pub fn put_may_execute(slots: &[u32], out: &mut [u8], t: u8, n: u32) -> WrittenTree
    ensures { (n ≤ last_index → Puts result (place_of slots.now) n
        (unary not1 (binary or2 (binary and2 (ref (slot full t 0)) (ref (slot barred t 0))) (ref (slot waits t 0)))) out.old out.new) × (result.count ≤ tree_room) }
{
    let k = u64::from(n);
    let full = place(slots, Kind::Full, t, 0, start::BIT0);
    let barred = place(slots, Kind::Barred, t, 0, start::BIT0);
    let waits = place(slots, Kind::Waits, t, 0, start::BIT0);
    let first = Formula::new(Operation::And, Sort::Bit, full, barred, 0);
    let second = Formula::new(Operation::Or, Sort::Bit, k, waits, 0);
    let third = Formula::new(Operation::Not, Sort::Bit, k + 1, 0, 0);
    put_three(out, n, first, second, third)
}

// Thread t's buffer is full unless it is flushed.
pub fn put_full(slots: &[u32], out: &mut [u8], threads: u8, t: u8, n: u32) -> WrittenTree
    ensures { (Puts result (place_of slots.now) n
        (ternary (if3 1) (ref (slot choice 0 (threads + t))) (ref (slot bit_zero 0 0)) (ref (slot full t 0))) out.old out.new) × (result.count ≤ tree_room) }
{
    let j = u16::from(threads) + u16::from(t);
    let flushes = place(slots, Kind::Choice, 0, j, start::BIT0);
    let zero = place(slots, Kind::BitZero, 0, 0, start::BIT0);
    let full = place(slots, Kind::Full, t, 0, start::BIT0);
    put_one(out, n, Operation::If, Sort::Bit, flushes, zero, full)
}

// The cell that is written, as it is.
pub fn put_flush_value(slots: &[u32], out: &mut [u8], threads: u8, n: u32) -> WrittenTree
    ensures { (Puts result (place_of slots.now) n (binary read2 (ref (slot shared_memory 0 0)) (ref (slot write_to 0 threads))) out.old out.new) × (result.count ≤ tree_room) }
{
    let memory = place(slots, Kind::SharedMemory, 0, 0, start::MEMORY);
    let address = place(slots, Kind::WriteTo, 0, u16::from(threads), start::WORD0);
    put_binary(out, n, Operation::Read, Sort::Word, memory, address)
}

// The memory with the cell written.
pub fn put_memory(slots: &[u32], out: &mut [u8], threads: u8, n: u32) -> WrittenTree
    ensures { (Puts result (place_of slots.now) n
        (ternary write3 (ref (slot shared_memory 0 0)) (ref (slot write_to 0 threads)) (ref (slot write_value 0 threads))) out.old out.new) × (result.count ≤ tree_room) }
{
    let memory = place(slots, Kind::SharedMemory, 0, 0, start::MEMORY);
    let address = place(slots, Kind::WriteTo, 0, u16::from(threads), start::WORD0);
    let value = place(slots, Kind::WriteValue, 0, u16::from(threads), start::WORD0);
    put_one(
        out,
        n,
        Operation::Write,
        Sort::Memory,
        memory,
        address,
        value,
    )
}
