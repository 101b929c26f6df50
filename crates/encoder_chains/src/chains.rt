// The chains of single values, of OPENING, of WAITS and of RAISED, each written at once over a tree.
ghost use Rattle.std.specs.Prelude.{◌≡◌, true, List, ℕ, ◌+◌, ◌*◌, ◌≤◌, ◌<◌, length};
ghost use Rattle.records.specs.Sets.{Set, most_threads};
ghost use Rattle.encoding.specs.Slots.{Term, kind_at, opening, waits, raised};
ghost use Rattle.encoding.specs.Steps.{link as link_of, links as links_of, chain as chain_of};
ghost use Rattle.encoder_slots.specs.Kinds.{number_of};
ghost use Rattle.encoder_slots.specs.Pieces.{WritesTree, Ready, chain_room};
ghost use Rattle.encoder_slots.specs.Places.{place_of};
ghost use Rattle.set_index.specs.ListTables.{ListTable};
ghost use Rattle.encoder_chains.specs.Chained.{chained};
ghost use Rattle.encoder_chains.specs.Placed.{placed_link, link_numbers, numbers_of};
ghost use Rattle.table.specs.Repeats.{last_index};

use crate::parts::{bit_if, flushed, halts, one_permitted};
use crate::written::{Root, put_link};
use crate::{Link, put_links};
use encoder_slots::start::BIT0;
use encoder_slots::{Kind, NamesKind, SIZE, THREADS, place};
use records::Layout;
use set_index::checks::{contains, first, following};
use set_index::lists;

const POINTS: u16 = Layout::CHECKPOINTS as u16;

// Writes the links that the CHECKs of thread t give to the chain of RAISED for checkpoint p over a tree: only these are visited.
pub fn raised_chain(
    table: &[u8],
    slots: &[u32],
    out: &mut [u8],
    t: u8,
    p: u16,
    n: u32,
    base: u64,
) -> Root
    ensures { ((S : Set) (cs members : List ℕ) (tree : Term) (start : List ℕ) (m : ℕ) → t < S.threads → p < length cs → n + chain_room ≤ last_index
        → Ready S cs members table.now slots.now m
        → WritesTree (place_of slots.now) tree start m out.old n base
        → WritesTree (place_of slots.now) (chain_of (link_of S cs 0 raised t p) (S.count t) tree) start m out.new result.next result.at)
        × (result.next ≤ n + chain_room) }
{
    let mut tree = Root { next: n, at: base };
    // With these known, the compiler drops the tests of places in the loop.
    if THREADS <= t {
        return tree;
    }
    if slots.len() != SIZE {
        return tree;
    }
    if table.len() != lists::LENGTH {
        return tree;
    }
    // along the list that the table has of these CHECKs
    let mut i = first(table, t, p);
    while i < lists::NONE {
        let link = bit_if(slots, true, t, i);
        tree = put_link(out, tree.next, tree.at, link);
        i = following(table, t, i);
    }
    tree
}

// How many links the chain of a value that there is one of has.
fn single_links(threads: u8, kind: Kind) -> u8
    requires { threads ≤ most_threads }
    ensures chain { (S : Set) (cs : List ℕ) → S.threads ≡ threads → chained (number_of kind) ≡ true → result ≡ links_of S cs 0 (kind_at (number_of kind)) 0 0 }
    ensures few { result ≤ 2 * most_threads }
{
    match kind {
        Kind::OnePermitted => threads + threads,
        _ => threads,
    }
}

// Link i of it.
fn single_link(slots: &[u32], threads: u8, kind: Kind, i: u8) -> Link
    ensures { (S : Set) (cs : List ℕ) → S.threads ≡ threads → chained (number_of kind) ≡ true
        → link_numbers result ≡ placed_link (place_of slots.now) (link_of S cs 0 (kind_at (number_of kind)) 0 0 i) }
{
    match kind {
        Kind::OnePermitted => one_permitted(slots, i),
        Kind::FlushTo => flushed(threads, slots, Kind::Adr, i),
        Kind::FlushValue => flushed(threads, slots, Kind::Val, i),
        _ => halts(slots, i),
    }
}

// Writes the links of the chain of a value that there is one of: over the choices (ONE_PERMITTED) or the threads (FLUSH_TO, FLUSH_VALUE, HALTS).
pub fn single_chain<K: NamesKind>(
    slots: &[u32],
    out: &mut [u8],
    threads: u8,
    kind: K,
    n: u32,
    base: u64,
) -> Root
    ensures { ((S : Set) (cs members lists : List ℕ) (tree : Term) (start : List ℕ) (m : ℕ) → S.threads ≡ threads → chained (K.number kind) ≡ true → n + chain_room ≤ last_index
        → Ready S cs members lists slots.now m
        → WritesTree (place_of slots.now) tree start m out.old n base
        → WritesTree (place_of slots.now) (chain_of (link_of S cs 0 (kind_at (K.number kind)) 0 0) (links_of S cs 0 (kind_at (K.number kind)) 0 0) tree) start m out.new result.next result.at)
        × (result.next ≤ n + chain_room) }
{
    let Ok(kind) = kind.kind() else {
        return Root { next: n, at: base };
    };
    // With these known, the compiler drops the tests of places in the loop.
    if slots.len() != SIZE || THREADS < threads {
        return Root { next: n, at: base };
    }
    put_links(out, single_links(threads, kind), n, base, |i| {
        Some(single_link(slots, threads, kind, i))
    })
}

// Whether thread t is marked at checkpoint p, which it contains; no link where it does not.
fn opening_link(table: &[u8], slots: &[u32], t: u8, p: u16) -> Option<Link>
    ensures { (S : Set) (cs : List ℕ) → ListTable S cs table.now → t < S.threads → p < length cs
        → numbers_of result ≡ placed_link (place_of slots.now) (link_of S cs 0 opening 0 p t) }
{
    let mark = place(slots, Kind::Mark, t, p, BIT0);
    contains(table, t, p).then_some(Link::And(mark))
}

// Writes the links of the chain of OPENING for checkpoint p: the marks of the threads that contain it.
pub fn opening_chain(
    table: &[u8],
    slots: &[u32],
    out: &mut [u8],
    threads: u8,
    p: u16,
    n: u32,
    base: u64,
) -> Root
    ensures { ((S : Set) (cs members : List ℕ) (tree : Term) (start : List ℕ) (m : ℕ) → S.threads ≡ threads → p < length cs → n + chain_room ≤ last_index
        → Ready S cs members table.now slots.now m
        → WritesTree (place_of slots.now) tree start m out.old n base
        → WritesTree (place_of slots.now) (chain_of (link_of S cs 0 opening 0 p) S.threads tree) start m out.new result.next result.at)
        × (result.next ≤ n + chain_room) }
{
    // With these known, the compiler drops the tests of places in the loop.
    if slots.len() != SIZE || table.len() != lists::LENGTH || THREADS < threads {
        return Root { next: n, at: base };
    }
    put_links(out, threads, n, base, |t| opening_link(table, slots, t, p))
}

// Whether thread t is held at checkpoint p, which it contains; no link where it does not.
fn waits_link(table: &[u8], slots: &[u32], t: u8, p: u8) -> Option<Link>
    ensures { (S : Set) (cs : List ℕ) → ListTable S cs table.now → t < S.threads → p < length cs
        → numbers_of result ≡ placed_link (place_of slots.now) (link_of S cs 0 waits t 0 p) }
{
    let point = u16::from(p);
    let held = place(slots, Kind::Held, t, point, BIT0);
    contains(table, t, point).then_some(Link::Or(held))
}

// Writes the links of the chain of WAITS for thread t: whether it is marked at a checkpoint that is not open.
pub fn waits_chain(
    table: &[u8],
    slots: &[u32],
    out: &mut [u8],
    count: u16,
    t: u8,
    n: u32,
    base: u64,
) -> Root
    ensures { ((S : Set) (cs members : List ℕ) (tree : Term) (start : List ℕ) (m : ℕ) → length cs ≡ count → t < S.threads → n + chain_room ≤ last_index
        → Ready S cs members table.now slots.now m
        → WritesTree (place_of slots.now) tree start m out.old n base
        → WritesTree (place_of slots.now) (chain_of (link_of S cs 0 waits t 0) (length cs) tree) start m out.new result.next result.at)
        × (result.next ≤ n + chain_room) }
{
    // With these known, the compiler drops the tests of places in the loop.
    if slots.len() != SIZE || table.len() != lists::LENGTH || POINTS < count {
        return Root { next: n, at: base };
    }
    put_links(
        out,
        count as u8,
        n,
        base,
        |p| waits_link(table, slots, t, p),
    )
}
