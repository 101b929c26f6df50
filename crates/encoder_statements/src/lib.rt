// The values that each statement has, written for one thread. Each kind has its own loop: one loop for all kinds, which
// tests the kind for each value, is too slow. Nor does one function over a closure that writes the tree close: what the
// callee promises of any set, a function of that set, is not found in what the closure promises.
#![tactic(auto)]

ghost use Rattle.std.specs.Prelude.{◌≡◌, true, List, ℕ, ◌+◌, ◌≤◌, ◌<◌, length};
ghost use Rattle.records.specs.Sets.{Set, set_by, most_threads, most_statements};
ghost use Rattle.encoding.specs.Slots.{Slot, kind_at, active, address, loaded, swaps, result as result_kind, test, not_test, argument, kind_count};
ghost use Rattle.encoding.specs.Steps.{base as base_of, entry as entry_of, line as line_of};
ghost use Rattle.encoder_slots.specs.Kinds.{number_of};
ghost use Rattle.encoder_slots.specs.Places.{place_of, size};
ghost use Rattle.encoder_slots.specs.Pieces.{Writes, Ready, line_room, tree_room};
ghost use Rattle.encoder_bases.specs.SmallTrees.{Puts};
ghost use Rattle.encoder_slots.specs.Places.{of_statement};
ghost use Rattle.encoder_statements.specs.StatementValues.{Line, Listed};
ghost use Rattle.table.specs.Repeats.{last_index};

use encoder_bases::WrittenTree;
use encoder_slots::{Kind, LINE, NamesKind, SIZE, THREADS, start};
use records::Layout;
use set_index::members::Class;
use table::Formula;

// The last index from which there is room for the values of a thread.
const LIMIT: u32 = Formula::LAST - LINE;

// Sets the place of a value whose tree was written from index n on; gives the next index.
fn settle(slots: &mut [u32], kind: Kind, t: u8, i: u16, n: u32, tree: WrittenTree) -> u32
    requires { (n + tree_room ≤ last_index) × (tree.count ≤ tree_room) }
    ensures { ((S : Set) (cs : List ℕ) (k : ℕ) (out after : List ℕ) → number_of kind < kind_count → of_statement (number_of kind) ≡ true → t < most_threads → i < most_statements
        → length slots.old ≡ size → ((s : Slot) → place_of slots.old s < n)
        → Puts tree (place_of slots.old) n (base_of S cs k (kind_at (number_of kind)) t i) out after
        → Writes (entry_of S cs k (kind_at (number_of kind)) t i) out slots.old n after slots.new result)
        × (length slots.new ≡ length slots.old)
        × (result ≤ n + tree_room) }
{
    encoder_slots::set_place(slots, kind, t, i, tree.root);
    n + tree.count
}

// Whether each statement executes.
fn actives(
    set: &[u8],
    first: u16,
    count: u16,
    slots: &mut [u32],
    out: &mut [u8],
    t: u8,
    n: u32,
) -> u32
    requires { (count ≤ most_statements) × (t < most_threads) × (n + line_room ≤ last_index) × (length slots.old ≡ size) }
    ensures { (Line active set.now first count t out.old slots.old n out.new slots.new result) × (result ≤ n + line_room) }
{
    let executes = encoder_slots::place(slots, Kind::Choice, 0, u16::from(t), start::BIT0);
    let mut next = n;
    for i in 0..count {
        let tree = encoder_bases::put_active(slots, out, executes, t, i, next);
        next = settle(slots, Kind::Active, t, i, next, tree);
    }
    next
}

// The address of each statement.
fn addresses(
    set: &[u8],
    first: u16,
    count: u16,
    slots: &mut [u32],
    out: &mut [u8],
    t: u8,
    n: u32,
) -> u32
    requires { (count ≤ most_statements) × (t < most_threads) × (n + line_room ≤ last_index) × (length slots.old ≡ size) }
    ensures { (Line address set.now first count t out.old slots.old n out.new slots.new result) × (result ≤ n + line_room) }
{
    let load = encoder_bases::load_of(slots, t);
    let mut next = n;
    for i in 0..count {
        let statement = records::statement_at(set, u32::from(first) + u32::from(i));
        let tree = encoder_bases::put_address(statement, slots, out, load, t, i, next);
        next = settle(slots, Kind::Address, t, i, next, tree);
    }
    next
}

// The word that each statement loads; those that load nothing have their word already.
fn loads(
    set: &[u8],
    members: &[u8],
    first: u16,
    slots: &mut [u32],
    out: &mut [u8],
    t: u8,
    n: u32,
) -> u32
    requires { (t < most_threads) × (n + line_room ≤ last_index) × (length slots.old ≡ size) }
    ensures { (Listed loaded set.now members.now first t out.old slots.old n out.new slots.new result) × (result ≤ n + line_room) }
{
    let load = encoder_bases::load_of(slots, t);
    let nothing = encoder_slots::place(slots, Kind::WordZero, 0, 0, start::WORD0);
    let mut next = n;
    let loading = set_index::members::count_of(members, Class::Loads, t);
    for j in 0..loading {
        let i = set_index::members::member(members, Class::Loads, t, j);
        let statement = records::statement_at(set, u32::from(first) + u32::from(i));
        let tree = encoder_bases::put_loaded(statement, slots, out, load, nothing, t, i, next);
        next = settle(slots, Kind::Loaded, t, i, next, tree);
    }
    next
}

// Whether each statement is a CAS that executes and matches; those that are no CAS have their bit already.
fn swaps(
    set: &[u8],
    members: &[u8],
    first: u16,
    slots: &mut [u32],
    out: &mut [u8],
    t: u8,
    n: u32,
) -> u32
    requires { (t < most_threads) × (n + line_room ≤ last_index) × (length slots.old ≡ size) }
    ensures { (Listed swaps set.now members.now first t out.old slots.old n out.new slots.new result) × (result ≤ n + line_room) }
{
    let nothing = encoder_slots::place(slots, Kind::BitZero, 0, 0, start::BIT0);
    let mut next = n;
    let swapping = set_index::members::count_of(members, Class::Cas, t);
    for j in 0..swapping {
        let i = set_index::members::member(members, Class::Cas, t, j);
        let statement = records::statement_at(set, u32::from(first) + u32::from(i));
        let tree = encoder_bases::put_swaps(statement, slots, out, nothing, t, i, next);
        next = settle(slots, Kind::Swaps, t, i, next, tree);
    }
    next
}

// What accu becomes by each statement; those that do not change it have their word already.
fn results(
    set: &[u8],
    members: &[u8],
    first: u16,
    slots: &mut [u32],
    out: &mut [u8],
    t: u8,
    n: u32,
) -> u32
    requires { (t < most_threads) × (n + line_room ≤ last_index) × (length slots.old ≡ size) }
    ensures { (Listed result_kind set.now members.now first t out.old slots.old n out.new slots.new result) × (result ≤ n + line_room) }
{
    let mut next = n;
    let computing = set_index::members::count_of(members, Class::SetsAccu, t);
    for j in 0..computing {
        let i = set_index::members::member(members, Class::SetsAccu, t, j);
        let statement = records::statement_at(set, u32::from(first) + u32::from(i));
        let tree = encoder_bases::put_result(statement, slots, out, t, i, next);
        next = settle(slots, Kind::Result, t, i, next, tree);
    }
    next
}

// The test of each statement; those that are no conditional jump have theirs already.
fn tests(
    set: &[u8],
    members: &[u8],
    first: u16,
    slots: &mut [u32],
    out: &mut [u8],
    t: u8,
    n: u32,
) -> u32
    requires { (t < most_threads) × (n + line_room ≤ last_index) × (length slots.old ≡ size) }
    ensures { (Listed test set.now members.now first t out.old slots.old n out.new slots.new result) × (result ≤ n + line_room) }
{
    let accu = encoder_slots::place(slots, Kind::Accu, t, 0, start::WORD0);
    let zero = encoder_slots::place(slots, Kind::WordZero, 0, 0, start::WORD0);
    let nothing = encoder_slots::place(slots, Kind::BitZero, 0, 0, start::BIT0);
    let mut next = n;
    let tested = set_index::members::count_of(members, Class::Conditional, t);
    for j in 0..tested {
        let i = set_index::members::member(members, Class::Conditional, t, j);
        let statement = records::statement_at(set, u32::from(first) + u32::from(i));
        let tree = encoder_bases::put_test(statement, out, accu, zero, nothing, next);
        next = settle(slots, Kind::Test, t, i, next, tree);
    }
    next
}

// Whether the test of each statement does not hold; those that are no conditional jump have this bit already.
fn not_tests(members: &[u8], slots: &mut [u32], out: &mut [u8], t: u8, n: u32) -> u32
    requires { (t < most_threads) × (n + line_room ≤ last_index) × (length slots.old ≡ size) }
    ensures { ((set : List ℕ) (first : ℕ) → Listed not_test set members.now first t out.old slots.old n out.new slots.new result) × (result ≤ n + line_room) }
{
    let mut next = n;
    let not_tested = set_index::members::count_of(members, Class::Conditional, t);
    for j in 0..not_tested {
        let i = set_index::members::member(members, Class::Conditional, t, j);
        let tree = encoder_bases::put_not_test(slots, out, t, i, next);
        next = settle(slots, Kind::NotTest, t, i, next, tree);
    }
    next
}

// The argument of each statement.
fn arguments(
    set: &[u8],
    first: u16,
    count: u16,
    slots: &mut [u32],
    out: &mut [u8],
    t: u8,
    n: u32,
) -> u32
    requires { (count ≤ most_statements) × (t < most_threads) × (n + line_room ≤ last_index) × (length slots.old ≡ size) }
    ensures { (Line argument set.now first count t out.old slots.old n out.new slots.new result) × (result ≤ n + line_room) }
{
    let mut next = n;
    for i in 0..count {
        let statement = records::statement_at(set, u32::from(first) + u32::from(i));
        let tree = encoder_bases::put_argument(statement, out, next);
        next = settle(slots, Kind::Argument, t, i, next, tree);
    }
    next
}

// Writes the values of a kind for the statements of thread t, their records from index n on; gives the next index.
// The limits are tested here once, so that the compiler need not test bounds in the loops.
pub fn statement_line<K: NamesKind>(
    set: &[u8],
    layout: Layout,
    members: &[u8],
    slots: &mut [u32],
    out: &mut [u8],
    kind: K,
    t: u8,
    n: u32,
) -> u32
    ensures { ((cs lists : List ℕ) (k : ℕ) → of_statement (K.number kind) ≡ true → t < most_threads → n + line_room ≤ last_index
        → Ready (set_by set.now layout) cs members.now lists slots.old n
        → Writes (line_of (set_by set.now layout) cs k (kind_at (K.number kind)) t) out.old slots.old n out.new slots.new result)
        × (result ≤ n + line_room) }
{
    let Ok(kind) = kind.kind() else {
        return n;
    };
    if THREADS <= t {
        return n;
    }
    let thread = usize::from(t);
    let count = layout.counts[thread];
    if Layout::STATEMENTS < count
        || slots.len() != SIZE
        || members.len() != set_index::members::LENGTH
        || LIMIT < n
    {
        return n;
    }
    let first = layout.starts[thread];
    match kind {
        Kind::Active => actives(set, first, count, slots, out, t, n),
        Kind::Address => addresses(set, first, count, slots, out, t, n),
        Kind::Loaded => loads(set, members, first, slots, out, t, n),
        Kind::Swaps => swaps(set, members, first, slots, out, t, n),
        Kind::Result => results(set, members, first, slots, out, t, n),
        Kind::Test => tests(set, members, first, slots, out, t, n),
        Kind::NotTest => not_tests(members, slots, out, t, n),
        Kind::Argument => arguments(set, first, count, slots, out, t, n),
        _ => n,
    }
}
