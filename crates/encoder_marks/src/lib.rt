// The values of checkpoints: which are open, which threads wait, and each thread's marks.
#![tactic(auto)]

ghost use Rattle.std.specs.Prelude.{◌≡◌, ◌↔◌, IsTrue, true, List, ℕ, ◌+◌, ◌*◌, ◌≤◌, ◌<◌, length};
ghost use Rattle.records.specs.Sets.{Set, most_threads, most_checkpoints};
ghost use Rattle.encoding.specs.Slots.{kind_at, opening as opening_kind, waits as waits_kind};
ghost use Rattle.encoding.specs.Steps.{base as base_of, entry as entry_of, line as line_of, block as block_of};
ghost use Rattle.encoder_slots.specs.Kinds.{number_of};
ghost use Rattle.encoder_slots.specs.Places.{place_of};
ghost use Rattle.encoder_slots.specs.Pieces.{Writes, Ready, tree_room, entry_room, block_room};
ghost use Rattle.encoder_bases.specs.SmallTrees.{Puts};
ghost use Rattle.encoder_marks.specs.Marked.{marked, Fits};
ghost use Rattle.table.specs.Repeats.{last_index};

use encoder_bases::WrittenTree;
use encoder_slots::{BLOCK, Kind, NamesKind, SIZE, THREADS};
use records::Layout;
use set_index::lists::LENGTH;
use table::Formula;

const POINTS: u16 = Layout::CHECKPOINTS as u16;

// The last index from which there is room for the values of a kind.
const LIMIT: u32 = Formula::LAST - BLOCK;

// Whether the values of a kind have room from index n on, and the lists and slots have their lengths, the threads and checkpoints their limits.
// With this known, the compiler drops the tests of places in the loops.
fn fits(table: &[u8], slots: &[u32], threads: u8, count: u16, n: u32) -> bool
    ensures { IsTrue result ↔ Fits table.now slots.now threads count n }
{
    n <= LIMIT
        && slots.len() == SIZE
        && table.len() == LENGTH
        && threads <= THREADS
        && count <= POINTS
}

// Writes whether checkpoint p is open: whether every thread that contains it is marked there.
fn opening(
    table: &[u8],
    slots: &mut [u32],
    out: &mut [u8],
    threads: u8,
    step: u8,
    p: u16,
    n: u32,
) -> u32
    requires { (n + entry_room ≤ last_index) × (p < most_checkpoints) }
    ensures { ((S : Set) (cs members : List ℕ) → S.threads ≡ threads → p < length cs → Ready S cs members table.now slots.old n
        → Writes (entry_of S cs step opening_kind 0 p) out.old slots.old n out.new slots.new result)
        × (result ≤ n + entry_room) }
{
    let base = encoder_bases::put_base(slots, out, threads, step, Kind::Opening, 0, p, n);
    let next = n + base.count;
    let tree = encoder_chains::chains::opening_chain(
        table, slots, out, threads, p, next, base.root,
    );
    encoder_slots::set_place(slots, Kind::Opening, 0, p, tree.at);
    tree.next
}

// Writes for each checkpoint whether it is open. A loop that these blocks share would take its three lines as a closure, the thread as a number to be cast.
pub fn openings(
    table: &[u8],
    slots: &mut [u32],
    out: &mut [u8],
    threads: u8,
    count: u16,
    step: u8,
    n: u32,
) -> u32
    ensures { ((S : Set) (cs members : List ℕ) → S.threads ≡ threads → length cs ≡ count → Ready S cs members table.now slots.old n → n + block_room ≤ last_index
        → Writes (block_of S cs step opening_kind) out.old slots.old n out.new slots.new result)
        × (result ≤ n + block_room) }
{
    if !fits(table, slots, threads, count, n) {
        return n;
    }
    let mut next = n;
    for p in 0..count {
        next = opening(table, slots, out, threads, step, p, next);
    }
    next
}

// Writes whether thread t has halted or waits at a checkpoint.
fn waiting(
    table: &[u8],
    slots: &mut [u32],
    out: &mut [u8],
    threads: u8,
    count: u16,
    step: u8,
    t: u8,
    n: u32,
) -> u32
    requires { (n + entry_room ≤ last_index) × (t < most_threads) }
    ensures { ((S : Set) (cs members : List ℕ) → S.threads ≡ threads → length cs ≡ count → t < S.threads → Ready S cs members table.now slots.old n
        → Writes (entry_of S cs step waits_kind t 0) out.old slots.old n out.new slots.new result)
        × (result ≤ n + entry_room) }
{
    let base = encoder_bases::put_base(slots, out, threads, step, Kind::Waits, t, 0, n);
    let next = n + base.count;
    let tree = encoder_chains::chains::waits_chain(table, slots, out, count, t, next, base.root);
    encoder_slots::set_place(slots, Kind::Waits, t, 0, tree.at);
    tree.next
}

// Writes for each thread whether it has halted or waits at a checkpoint.
pub fn waits(
    table: &[u8],
    slots: &mut [u32],
    out: &mut [u8],
    threads: u8,
    count: u16,
    step: u8,
    n: u32,
) -> u32
    ensures { ((S : Set) (cs members : List ℕ) → S.threads ≡ threads → length cs ≡ count → Ready S cs members table.now slots.old n → n + block_room ≤ last_index
        → Writes (block_of S cs step waits_kind) out.old slots.old n out.new slots.new result)
        × (result ≤ n + block_room) }
{
    if !fits(table, slots, threads, count, n) {
        return n;
    }
    let mut next = n;
    for t in 0..threads {
        next = waiting(table, slots, out, threads, count, step, t, next);
    }
    next
}

// Writes the base of a mark of thread t at checkpoint p. Each kind is named, so that the compiler leaves out the tests of other kinds.
fn put_marked(
    slots: &[u32],
    out: &mut [u8],
    threads: u8,
    step: u8,
    kind: Kind,
    t: u8,
    p: u16,
    n: u32,
) -> WrittenTree
    ensures { ((S : Set) (cs : List ℕ) → S.threads ≡ threads → marked (number_of kind) ≡ true → n ≤ last_index
        → Puts result (place_of slots.now) n (base_of S cs step (kind_at (number_of kind)) t p) out.old out.new) × (result.count ≤ tree_room) }
{
    match kind {
        Kind::Held => encoder_bases::put_base(slots, out, threads, step, Kind::Held, t, p, n),
        Kind::Raised => encoder_bases::put_base(slots, out, threads, step, Kind::Raised, t, p, n),
        _ => encoder_bases::put_base(slots, out, threads, step, Kind::Mark, t, p, n),
    }
}

// Writes the mark of thread t at checkpoint p, if the thread contains it.
fn entry(
    table: &[u8],
    slots: &mut [u32],
    out: &mut [u8],
    threads: u8,
    step: u8,
    kind: Kind,
    t: u8,
    p: u16,
    n: u32,
) -> u32
    requires { (n + entry_room ≤ last_index) × (t < most_threads) × (p < most_checkpoints) }
    ensures { ((S : Set) (cs members : List ℕ) → S.threads ≡ threads → marked (number_of kind) ≡ true → t < S.threads → p < length cs → Ready S cs members table.now slots.old n
        → Writes (entry_of S cs step (kind_at (number_of kind)) t p) out.old slots.old n out.new slots.new result)
        × (result ≤ n + entry_room) }
{
    if set_index::checks::contains(table, t, p) {
        let base = put_marked(slots, out, threads, step, kind, t, p, n);
        let next = n + base.count;
        match kind {
            Kind::Raised => {
                let tree = encoder_chains::chains::raised_chain(
                    table, slots, out, t, p, next, base.root,
                );
                encoder_slots::set_place(slots, kind, t, p, tree.at);
                tree.next
            }
            _ => {
                encoder_slots::set_place(slots, kind, t, p, base.root);
                next
            }
        }
    } else {
        n
    }
}

// Writes the marks of thread t, for so many checkpoints.
fn line(
    table: &[u8],
    slots: &mut [u32],
    out: &mut [u8],
    threads: u8,
    count: u16,
    step: u8,
    kind: Kind,
    t: u8,
    n: u32,
) -> u32
    requires { (n + most_checkpoints * entry_room ≤ last_index) × (count ≤ most_checkpoints) × (t < most_threads) }
    ensures { ((S : Set) (cs members : List ℕ) → S.threads ≡ threads → length cs ≡ count → marked (number_of kind) ≡ true → t < S.threads → Ready S cs members table.now slots.old n
        → Writes (line_of S cs step (kind_at (number_of kind)) t) out.old slots.old n out.new slots.new result)
        × (result ≤ n + most_checkpoints * entry_room) }
{
    let mut next = n;
    for p in 0..count {
        next = entry(table, slots, out, threads, step, kind, t, p, next);
    }
    next
}

// Writes the marks of each thread, of one of the kinds HELD, RAISED and MARK.
pub fn marks<K: NamesKind>(
    table: &[u8],
    slots: &mut [u32],
    out: &mut [u8],
    threads: u8,
    count: u16,
    step: u8,
    kind: K,
    n: u32,
) -> u32
    ensures { ((S : Set) (cs members : List ℕ) → S.threads ≡ threads → length cs ≡ count → marked (K.number kind) ≡ true → Ready S cs members table.now slots.old n → n + block_room ≤ last_index
        → Writes (block_of S cs step (kind_at (K.number kind))) out.old slots.old n out.new slots.new result)
        × (result ≤ n + block_room) }
{
    let Ok(kind) = kind.kind() else {
        return n;
    };
    if !fits(table, slots, threads, count, n) {
        return n;
    }
    let mut next = n;
    for t in 0..threads {
        next = line(table, slots, out, threads, count, step, kind, t, next);
    }
    next
}
