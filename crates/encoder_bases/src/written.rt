// Trees of few records from the indexes of their operands, written as they are made.
ghost use Rattle.std.specs.Prelude.{◌≡◌, List, cond, ℕ, ◌+◌, ◌-◌, ◌≤◌, eqb};
ghost use Rattle.table.specs.Programs.{Binary, binary_number, binary_sort, ref, leaf, binary, ternary, constant_word, and2, equal2, read2, if3};
ghost use Rattle.encoding.specs.Slots.{Kind as SlotKind, Slot, slot, Term, kind_number, start_place, full, adr, val, shared_memory};
ghost use Rattle.encoder_slots.specs.Places.{place_of};
ghost use Rattle.encoder_slots.specs.Kinds.{number_of};
ghost use Rattle.table.specs.Operations.{operation_number, sort_number};
ghost use Rattle.encoder_bases.specs.SmallTrees.{Gives, Puts, load_of, plain, one_record, three_records};
ghost use Rattle.table.specs.Repeats.{last_index};
ghost use Rattle.encoder_slots.specs.Pieces.{tree_room};

use encoder_slots::{Kind, place, start};
use table::{Formula, Operation, Sort};

// How many records were written, and the index of the tree that they are of.
#[derive(Clone, Copy)]
pub struct WrittenTree {
    pub count: u32,
    pub root: u64,
}

// The most records of a tree that is written at once.
const TREE: u32 = 4;

// The index k places on; the last indexes are never reached.
fn after(n: u32, k: u32) -> u32
    ensures { n ≤ last_index → k ≤ tree_room → result ≡ n + k }
{
    if k <= TREE && n <= Formula::LAST {
        return n + k;
    }
    n
}

// No record: the tree is another value, which lies at `start` unless it was set.
pub fn put_none(slots: &[u32], kind: Kind, a: u8, b: u16, start: u64) -> WrittenTree
    ensures { ((n : ℕ) (k : SlotKind) (out : List ℕ) → number_of kind ≡ kind_number k → start ≡ start_place (slot k a b) → Puts result (place_of slots.now) n (ref (slot k a b)) out out) × (result.count ≤ tree_room) }
{
    let root = place(slots, kind, a, b, start);
    WrittenTree { count: 0, root }
}

// No record: the tree is another value, which lies at `root`.
pub fn put_at(root: u64) -> WrittenTree
    ensures { ((at : Slot → ℕ) (n : ℕ) (s : Slot) (out : List ℕ) → root ≡ at s → Puts result at n (ref s) out out) × (result.count ≤ tree_room) }
{
    WrittenTree { count: 0, root }
}

// One record.
pub fn put_one(
    out: &mut [u8],
    n: u32,
    operation: Operation,
    sort: Sort,
    a: u64,
    b: u64,
    c: u64,
) -> WrittenTree
    ensures { ((at : Slot → ℕ) (t : Term) → Gives (one_record n (plain (operation_number operation) (sort_number sort) a b c)) at n t → Puts result at n t out.old out.new) × (result.count ≤ tree_room) }
{
    let first = Formula::new(operation, sort, a, b, c);
    table::put(out, n, first);
    WrittenTree {
        count: 1,
        root: u64::from(n),
    }
}

// A word that is known.
pub fn put_constant(out: &mut [u8], n: u32, word: u16) -> WrittenTree
    ensures { ((at : Slot → ℕ) → Puts result at n (leaf (constant_word word)) out.old out.new) × (result.count ≤ tree_room) }
{
    table::put(out, n, Formula::known(Sort::Word, word));
    WrittenTree {
        count: 1,
        root: u64::from(n),
    }
}

// Three records.
pub fn put_three(
    out: &mut [u8],
    n: u32,
    first: Formula,
    second: Formula,
    third: Formula,
) -> WrittenTree
    ensures { ((at : Slot → ℕ) (t : Term) → n ≤ last_index → Gives (three_records n first second third) at n t → Puts result at n t out.old out.new) × (result.count ≤ tree_room) }
{
    table::put(out, n, first);
    table::put(out, after(n, 1), second);
    table::put(out, after(n, 2), third);
    WrittenTree {
        count: 3,
        root: u64::from(n) + 2,
    }
}

// Where the values lie that every load of a thread uses.
#[derive(Clone, Copy)]
pub struct Load {
    pub full: u64,
    pub adr: u64,
    pub val: u64,
    pub memory: u64,
}

// The places for the loads of thread t. A loop over statements asks for them once.
pub fn load_of(slots: &[u32], t: u8) -> Load
    ensures { result ≡ load_of (place_of slots.now) t }
{
    let full = place(slots, Kind::Full, t, 0, start::BIT0);
    let adr = place(slots, Kind::Adr, t, 0, start::WORD0);
    let val = place(slots, Kind::Val, t, 0, start::WORD0);
    let memory = place(slots, Kind::SharedMemory, 0, 0, start::MEMORY);
    Load {
        full,
        adr,
        val,
        memory,
    }
}

// A load of the address at index x: if full and adr is x then val else the cell.
pub fn put_load(out: &mut [u8], load: Load, x: u64, n: u32) -> WrittenTree
    ensures { ((at : Slot → ℕ) (t : ℕ) (s : Slot) → load ≡ load_of at t → x ≡ at s → n ≤ last_index → Puts result at n
        (ternary (if3 2) (binary and2 (ref (slot full t 0)) (binary equal2 (ref (slot adr t 0)) (ref s))) (ref (slot val t 0)) (binary read2 (ref (slot shared_memory 0 0)) (ref s))) out.old out.new) × (result.count ≤ tree_room) }
{
    let k = u64::from(n);
    let root = k + 3;
    let first = Formula::new(Operation::Equal, Sort::Bit, load.adr, x, 0);
    let second = Formula::new(Operation::And, Sort::Bit, load.full, k, 0);
    let third = Formula::new(Operation::Read, Sort::Word, load.memory, x, 0);
    let fourth = Formula::new(Operation::If, Sort::Word, k + 1, load.val, k + 2);
    table::put(out, n, first);
    table::put(out, after(n, 1), second);
    table::put(out, after(n, 2), third);
    table::put(out, after(n, 3), fourth);
    WrittenTree { count: 4, root }
}

// No record: the tree is the value of one kind for the thread before t, or before the first thread the value of another kind.
pub fn put_previous(slots: &[u32], kind: Kind, first: Kind, t: u16, start: u64) -> WrittenTree
    ensures { ((n : ℕ) (k l : SlotKind) (out : List ℕ) → number_of kind ≡ kind_number k → number_of first ≡ kind_number l → start ≡ start_place (slot k 0 (t - 1)) → start ≡ start_place (slot l 0 0)
        → Puts result (place_of slots.now) n (ref (cond (eqb t 0) (slot l 0 0) (slot k 0 (t - 1)))) out out) × (result.count ≤ tree_room) }
{
    if t == 0 {
        return put_none(slots, first, 0, 0, start);
    }
    put_none(slots, kind, 0, t - 1, start)
}

// One record of an operation with two operands, which lie at a and b.
pub fn put_binary(
    out: &mut [u8],
    n: u32,
    operation: Operation,
    sort: Sort,
    a: u64,
    b: u64,
) -> WrittenTree
    ensures { ((at : Slot → ℕ) (o : Binary) (s t : Slot) → operation_number operation ≡ binary_number o → sort_number sort ≡ binary_sort o → a ≡ at s → b ≡ at t
        → Puts result at n (binary o (ref s) (ref t)) out.old out.new) × (result.count ≤ tree_room) }
{
    put_one(out, n, operation, sort, a, b, 0)
}
