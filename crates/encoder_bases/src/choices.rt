// The choice bits, and what permits a choice.
ghost use Rattle.std.specs.Prelude.{◌≡◌, cond, ℕ, ◌-◌, ◌≤◌, eqb, ltb};
ghost use Rattle.table.specs.Programs.{ref, leaf, binary, ternary, choice_bit, and2, if3};
ghost use Rattle.encoding.specs.Slots.{Slot, slot, choice, may_execute, none, full, bit_zero, bit_one};
ghost use Rattle.encoder_slots.specs.Places.{place_of};
ghost use Rattle.encoder_bases.specs.SmallTrees.{Puts};
ghost use Rattle.encoder_slots.specs.Pieces.{tree_room};

use crate::written::{WrittenTree, put_binary, put_none, put_one};
use encoder_slots::{Kind, place, start};
use records::Layout;
use table::{Operation, Sort};

const THREADS: u16 = Layout::THREADS as u16;

// Choice bit j of a step: executes by thread, then flushes by thread.
pub fn put_choice(out: &mut [u8], threads: u8, step: u8, j: u16, n: u32) -> WrittenTree
    ensures { ((at : Slot → ℕ) → Puts result at n (leaf (cond (ltb j threads) (choice_bit step 0 j) (choice_bit step 1 (j - threads)))) out.old out.new) × (result.count ≤ tree_room) }
{
    let t = u16::from(threads);
    if j < t {
        return put_one(
            out,
            n,
            Operation::Choice,
            Sort::Bit,
            u64::from(step),
            0,
            u64::from(j),
        );
    }
    put_one(
        out,
        n,
        Operation::Choice,
        Sort::Bit,
        u64::from(step),
        1,
        u64::from(j - t),
    )
}

// No choice before choice j is taken.
pub fn put_none_before(slots: &[u32], out: &mut [u8], j: u16, n: u32) -> WrittenTree
    ensures { (Puts result (place_of slots.now) n
        (cond (eqb j 0) (ref (slot bit_one 0 0)) (ternary (if3 1) (ref (slot choice 0 (j - 1))) (ref (slot bit_zero 0 0)) (ref (slot none 0 (j - 1))))) out.old out.new) × (result.count ≤ tree_room) }
{
    if j == 0 {
        return put_none(slots, Kind::BitOne, 0, 0, start::BIT1);
    }
    let i = j - 1;
    let taken = place(slots, Kind::Choice, 0, i, start::BIT0);
    let zero = place(slots, Kind::BitZero, 0, 0, start::BIT0);
    let none = place(slots, Kind::None, 0, i, start::BIT0);
    put_one(out, n, Operation::If, Sort::Bit, taken, zero, none)
}

// Where the bit lies that permits choice j.
fn permit(slots: &[u32], threads: u8, j: u16) -> u64
    ensures { result ≡ place_of slots.now (cond (ltb j threads) (slot may_execute j 0) (slot full (j - threads) 0)) }
{
    let t = u16::from(threads);
    if j < t {
        return place(slots, Kind::MayExecute, j as u8, 0, start::BIT0);
    }
    let i = j - t;
    if i < THREADS {
        return place(slots, Kind::Full, i as u8, 0, start::BIT0);
    }
    0
}

// Choice j is permitted, and no choice before it is taken.
pub fn put_permitted_first(
    slots: &[u32],
    out: &mut [u8],
    threads: u8,
    j: u16,
    n: u32,
) -> WrittenTree
    ensures { (Puts result (place_of slots.now) n
        (binary and2 (ref (cond (ltb j threads) (slot may_execute j 0) (slot full (j - threads) 0))) (ref (slot none 0 j))) out.old out.new) × (result.count ≤ tree_room) }
{
    let permitted = permit(slots, threads, j);
    let none = place(slots, Kind::None, 0, j, start::BIT0);
    put_binary(out, n, Operation::And, Sort::Bit, permitted, none)
}
