// The flags of a thread's statements, which say the next one, each with the links of the statements that lead to it.
// A thread's statements stand from record `first` of the set on: the layout is read once.
#![tactic(auto)]

ghost use Rattle.std.specs.Prelude.{◌≡◌, List, [], ℕ, ◌+◌, ◌-◌, ◌≤◌, ◌<◌, get_or};
ghost use Rattle.records.specs.Sets.{Set, set_by, most_threads, most_statements};
ghost use Rattle.encoding.specs.Slots.{slot, Term, choice, flag as flag_kind, bit_zero};
ghost use Rattle.encoding.specs.Steps.{chain as chain_of, leads as leads_of, entry as entry_of, line as line_of};
ghost use Rattle.encoder_slots.specs.Places.{place_of};
ghost use Rattle.encoder_slots.specs.Pieces.{Writes, WritesTree, Ready, chain_room, entry_room, line_room};
ghost use Rattle.records.specs.StatementRecords.{Stands};
ghost use Rattle.set_index.specs.ListTables.{onward, next_jumps};
ghost use Rattle.encoder_flags.specs.Named.{NamedFirst};
ghost use Rattle.table.specs.Repeats.{last_index};

use encoder_chains::{Root, edges, put_link};
use encoder_slots::{Kind, LINE, SIZE, start};
use records::Layout;
use set_index::jumps::{first as first_jump, following};
use set_index::lists;
use table::Formula;

// The last index from which there is room for the flags of a thread.
const LIMIT: u32 = Formula::LAST - LINE;

// The jump to look for after statement i: `hit` where it comes later, else the one after jump i.
fn past(lists: &[u8], t: u8, hit: u16, i: u16) -> u16
    ensures { (i < hit → result ≡ hit) × (hit ≤ i → result ≡ onward i (get_or lists.now (next_jumps t + i) 0)) }
{
    if i < hit {
        return hit;
    }
    following(lists, t, i)
}

// A tree with links, and the jump to go on with.
#[derive(Clone, Copy)]
struct Named {
    tree: Root,
    hit: u16,
}

// Writes over a tree the links of the jumps that name one statement, from jump `hit` on and before statement `end`.
fn named_links(
    set: &[u8],
    first: u32,
    lists: &[u8],
    slots: &[u32],
    out: &mut [u8],
    t: u8,
    hit: u16,
    end: u16,
    n: u32,
    base: u64,
) -> Named
    requires { (first < 65536) × (end ≤ most_statements) × (n + (end - hit) ≤ last_index) × (t < most_threads) }
    ensures { ((S : Set) (cs members : List ℕ) (tree : Term) (start : List ℕ) (m j count from : ℕ) → j < most_statements → from ≤ hit → from ≤ end → end ≤ count
        → ((x : ℕ) → from ≤ x → x < end → (j ≡ x + 1 → ⊥)) → t < S.threads → Stands S set.now first count t
        → Ready S cs members lists.now slots.now m → NamedFirst S t count hit from j
        → WritesTree (place_of slots.now) (chain_of (leads_of S [] 0 t j) from tree) start m out.old n base
        → (WritesTree (place_of slots.now) (chain_of (leads_of S [] 0 t j) end tree) start m out.new result.tree.next result.tree.at)
        × (NamedFirst S t count result.hit end j))
        × (end ≤ result.hit) × (result.tree.next ≤ n + (end - hit)) }
{
    let mut tree = Root { next: n, at: base };
    let mut i = hit;
    // Each jump leads to the next one by the lists: no range and no iterator says which statements come.
    while i < end {
        let statement = records::statement_at(set, first + u32::from(i));
        let link = edges::named(statement.number, slots, t, i);
        tree = put_link(out, tree.next, tree.at, link);
        i = following(lists, t, i);
    }
    Named { tree, hit: i }
}

// Writes the links of the flag of statement j over a tree, where jumps name j: those of the jumps, and that of the statement before.
fn jump_links(
    set: &[u8],
    first: u32,
    lists: &[u8],
    slots: &[u32],
    out: &mut [u8],
    t: u8,
    j: u16,
    count: u16,
    n: u32,
    base: u64,
) -> Root
    requires { (first < 65536) × (count ≤ most_statements) × (j < count) × (n + chain_room ≤ last_index) × (t < most_threads) }
    ensures { ((S : Set) (cs members : List ℕ) (tree : Term) (start : List ℕ) (m : ℕ) → t < S.threads → Stands S set.now first count t
        → Ready S cs members lists.now slots.now m
        → WritesTree (place_of slots.now) tree start m out.old n base
        → WritesTree (place_of slots.now) (chain_of (leads_of S [] 0 t j) count tree) start m out.new result.next result.at)
        × (result.next ≤ n + chain_room) }
{
    let hit = first_jump(lists, t, j);
    if j == 0 {
        let all = named_links(set, first, lists, slots, out, t, hit, count, n, base);
        return all.tree;
    }
    let before = j - 1;
    let earlier = named_links(set, first, lists, slots, out, t, hit, before, n, base);
    let statement = records::statement_at(set, first + u32::from(before));
    let link = edges::leads(statement, slots, t, j, before);
    let tree = put_link(out, earlier.tree.next, earlier.tree.at, link);
    let next = past(lists, t, earlier.hit, before);
    let later = named_links(
        set, first, lists, slots, out, t, next, count, tree.next, tree.at,
    );
    later.tree
}

// Writes the links of the flag of statement j over a tree. Where no jump names j only the statement before leads to it.
fn flag_links(
    set: &[u8],
    first: u32,
    lists: &[u8],
    slots: &[u32],
    out: &mut [u8],
    t: u8,
    j: u16,
    count: u16,
    n: u32,
    base: u64,
) -> Root
    requires { (first < 65536) × (count ≤ most_statements) × (j < count) × (n + chain_room ≤ last_index) × (t < most_threads) }
    ensures { ((S : Set) (cs members : List ℕ) (tree : Term) (start : List ℕ) (m : ℕ) → t < S.threads → Stands S set.now first count t
        → Ready S cs members lists.now slots.now m
        → WritesTree (place_of slots.now) tree start m out.old n base
        → WritesTree (place_of slots.now) (chain_of (leads_of S [] 0 t j) count tree) start m out.new result.next result.at)
        × (result.next ≤ n + chain_room) }
{
    if first_jump(lists, t, j) < lists::NONE {
        return jump_links(set, first, lists, slots, out, t, j, count, n, base);
    }
    if 0 < j {
        let before = j - 1;
        let statement = records::statement_at(set, first + u32::from(before));
        let link = edges::follows(statement.number, slots, t, before);
        return put_link(out, n, base, link);
    }
    Root { next: n, at: base }
}

// Writes the flag of statement j of thread t, of `count` statements. `executes` and `zero` are where the choice that t executes and bit 0 lie.
fn flag(
    set: &[u8],
    first: u32,
    lists: &[u8],
    slots: &mut [u32],
    out: &mut [u8],
    t: u8,
    j: u16,
    count: u16,
    executes: u64,
    zero: u64,
    n: u32,
) -> u32
    requires { (first < 65536) × (count ≤ most_statements) × (j < count) × (t < most_threads) × (n + entry_room ≤ last_index) }
    ensures { ((S : Set) (cs members : List ℕ) (k : ℕ) → t < S.threads → Stands S set.now first count t → Ready S cs members lists.now slots.old n
        → executes ≡ place_of slots.old (slot choice 0 t) → zero ≡ place_of slots.old (slot bit_zero 0 0)
        → Writes (entry_of S cs k flag_kind t j) out.old slots.old n out.new slots.new result)
        × (result ≤ n + entry_room) }
{
    let statement = records::statement_at(set, first + u32::from(j));
    let base = encoder_bases::put_flag(statement, slots, out, executes, zero, t, j, n);
    let next = n + base.count;
    let tree = flag_links(set, first, lists, slots, out, t, j, count, next, base.root);
    encoder_slots::set_place(slots, Kind::Flag, t, j, tree.at);
    tree.next
}

// Writes the flags of thread t, of `count` statements.
fn each_flag(
    set: &[u8],
    first: u32,
    lists: &[u8],
    slots: &mut [u32],
    out: &mut [u8],
    t: u8,
    count: u16,
    n: u32,
) -> u32
    requires { (first < 65536) × (count ≤ most_statements) × (t < most_threads) × (n + line_room ≤ last_index) }
    ensures { ((S : Set) (cs members : List ℕ) (k : ℕ) → t < S.threads → Stands S set.now first count t → Ready S cs members lists.now slots.old n
        → Writes (line_of S cs k flag_kind t) out.old slots.old n out.new slots.new result)
        × (result ≤ n + line_room) }
{
    let executes = encoder_slots::place(slots, Kind::Choice, 0, u16::from(t), start::BIT0);
    let zero = encoder_slots::place(slots, Kind::BitZero, 0, 0, start::BIT0);
    let mut next = n;
    for j in 0..count {
        next = flag(
            set, first, lists, slots, out, t, j, count, executes, zero, next,
        );
    }
    next
}

// Writes the flags of thread t. The limits are tested here once, so that the compiler leaves out tests of bounds below.
pub fn flags(
    set: &[u8],
    layout: Layout,
    lists: &[u8],
    slots: &mut [u32],
    out: &mut [u8],
    t: u8,
    n: u32,
) -> u32
    ensures { ((cs members : List ℕ) (k : ℕ) → t < layout.threads → n + line_room ≤ last_index
        → Ready (set_by set.now layout) cs members lists.now slots.old n
        → Writes (line_of (set_by set.now layout) cs k flag_kind t)
        out.old slots.old n out.new slots.new result)
        × (result ≤ n + line_room) }
{
    let thread = usize::from(t);
    if Layout::THREADS <= thread {
        return n;
    }
    let count = layout.counts[thread];
    if Layout::STATEMENTS < count
        || slots.len() != SIZE
        || lists.len() != lists::LENGTH
        || LIMIT < n
    {
        return n;
    }
    let first = records::first(layout, t);
    each_flag(set, first, lists, slots, out, t, count, n)
}
