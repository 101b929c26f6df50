// The chains whose links the statements of a class give, by the kind of the chain.
ghost use Rattle.std.specs.Prelude.{◌≡◌, List, ℕ, ◌+◌, ◌≤◌, ◌<◌, MatchOption, length, get_or};
ghost use Rattle.records.specs.Sets.{Set, most_threads};
ghost use Rattle.encoding.specs.Slots.{Term};
ghost use Rattle.encoding.specs.Steps.{Link as ChainLink, skip, chain as chain_of};
ghost use Rattle.encoder_slots.specs.Kinds.{number_of};
ghost use Rattle.encoder_slots.specs.Pieces.{WritesTree, Ready, chain_room};
ghost use Rattle.encoder_slots.specs.Places.{place_of, place_from};
ghost use Rattle.encoder_chains.specs.Given.{Gives, given_by, given_link, effect_sort, effect_place};
ghost use Rattle.set_index.specs.Members.{Members, of_class, members_of, class_number};
ghost use Rattle.encoder_chains.specs.Placed.{placed_link, if_link, link_numbers};
ghost use Rattle.table.specs.Operations.{sort_number};
ghost use Rattle.table.specs.Repeats.{last_index};

use crate::written::Root;
use crate::{Link, put_links};
use encoder_slots::start::{BIT0, BIT1, WORD0};
use encoder_slots::{Kind, NamesKind, SIZE, THREADS, place};
use set_index::members::{self, Class};
use table::Sort;

// What a link gives where its test holds: bit 1, its thread's accu, or the statement's own word of a kind.
#[derive(Clone, Copy, Debug, PartialEq, Eq)]
pub enum Effect {
    One,
    Accu,
    Own(Kind),
}

impl Effect {
    // The sort of the chain.
    fn sort(self) -> Sort
        ensures { sort_number result ≡ effect_sort self }
    {
        match self {
            Effect::One => Sort::Bit,
            Effect::Accu | Effect::Own(_) => Sort::Word,
        }
    }

    // Where it lies for statement i of thread t.
    fn place(self, slots: &[u32], t: u8, i: u16) -> u64
        ensures { result ≡ effect_place self slots.now t i }
    {
        match self {
            Effect::One => place(slots, Kind::BitOne, 0, 0, BIT1),
            Effect::Accu => place(slots, Kind::Accu, t, 0, WORD0),
            Effect::Own(kind) => place(slots, kind, t, i, WORD0),
        }
    }
}

// A class whose statements give the links of a chain: if the bit of kind `test` holds, then the effect.
#[derive(Clone, Copy, Debug, PartialEq, Eq)]
pub struct Giver {
    pub class: Class,
    pub test: Kind,
    pub effect: Effect,
}

// Statements of a class that, where they execute, give an effect.
fn executed(class: Class, effect: Effect) -> Giver
    ensures { result ≡ record { class = class; test = Kind.Active; effect = effect } }
{
    Giver {
        class,
        test: Kind::Active,
        effect,
    }
}

// CASs that, where they execute and match, give an effect.
fn swapped(effect: Effect) -> Giver
    ensures { result ≡ record { class = Class.Cas; test = Kind.Swaps; effect = effect } }
{
    Giver {
        class: Class::Cas,
        test: Kind::Swaps,
        effect,
    }
}

// The statements that give the links of the chain of a kind; of other kinds no statement gives one.
fn giver_of(kind: Kind) -> Option<Giver>
    ensures { MatchOption result ((t i n : ℕ) → given_link (number_of kind) t i n ≡ skip) (Gives (number_of kind)) }
{
    let giver = match kind {
        Kind::Barred => executed(Class::NeedsEmpty, Effect::One),
        Kind::WriteTo => swapped(Effect::Own(Kind::Address)),
        Kind::WriteValue => swapped(Effect::Accu),
        Kind::Exits => executed(Class::Exit, Effect::One),
        Kind::Codes => executed(Class::Exit, Effect::Own(Kind::Argument)),
        Kind::Val => executed(Class::Store, Effect::Accu),
        Kind::Adr => executed(Class::Store, Effect::Own(Kind::Address)),
        Kind::Mem => executed(Class::Mem, Effect::Own(Kind::Loaded)),
        Kind::Accu => executed(Class::SetsAccu, Effect::Own(Kind::Result)),
        Kind::Full => executed(Class::Store, Effect::One),
        Kind::Halted => executed(Class::Halt, Effect::One),
        _ => return None,
    };
    Some(giver)
}

// The link that statement number j of a giver's class gives.
fn giver_link(members: &[u8], slots: &[u32], giver: Giver, t: u8, j: u8) -> Link
    ensures { (S : Set) → Members S members.now → t < most_threads
        → j < length (members_of S (class_number giver.class) t)
        → (let i = get_or (members_of S (class_number giver.class) t) j 0 in
        link_numbers result ≡ if_link (effect_sort giver.effect) (place_from slots.now (number_of giver.test) t i 0) (effect_place giver.effect slots.now t i)) }
{
    let i = members::member(members, giver.class, t, u16::from(j));
    Link::If {
        sort: giver.effect.sort(),
        test: place(slots, giver.test, t, i, BIT0),
        effect: giver.effect.place(slots, t, i),
    }
}

// Writes the links of a giver's statements of thread t over a tree.
fn giver_links(
    members: &[u8],
    slots: &[u32],
    out: &mut [u8],
    giver: Giver,
    t: u8,
    n: u32,
    base: u64,
) -> Root
    ensures { ((S : Set) (cs lists : List ℕ) (links : ℕ → ChainLink) (tree : Term) (start : List ℕ) (m : ℕ) → t < S.threads → n + chain_room ≤ last_index
        → Ready S cs members.now lists slots.now m
        → ((i : ℕ) → if_link (effect_sort giver.effect) (place_from slots.now (number_of giver.test) t i 0) (effect_place giver.effect slots.now t i)
        ≡ placed_link (place_of slots.now) (links i))
        → WritesTree (place_of slots.now) tree start m out.old n base
        → WritesTree (place_of slots.now) (chain_of (of_class S (class_number giver.class) t links) (S.count t) tree) start m out.new result.next result.at)
        × (result.next ≤ n + chain_room) }
{
    // With these known, the compiler drops the tests of places in the loop.
    if THREADS <= t || slots.len() != SIZE || members.len() != members::LENGTH {
        return Root { next: n, at: base };
    }
    let many = members::count_of(members, giver.class, t);
    put_links(out, many as u8, n, base, |j| {
        Some(giver_link(members, slots, giver, t, j))
    })
}

// Writes the links that the statements of thread t give to the chain of a kind over a tree.
pub fn given_chain<K: NamesKind>(
    members: &[u8],
    slots: &[u32],
    out: &mut [u8],
    kind: K,
    t: u8,
    n: u32,
    base: u64,
) -> Root
    ensures { ((S : Set) (cs lists : List ℕ) (tree : Term) (start : List ℕ) (m : ℕ) → t < S.threads → n + chain_room ≤ last_index
        → Ready S cs members.now lists slots.now m
        → WritesTree (place_of slots.now) tree start m out.old n base
        → WritesTree (place_of slots.now) (chain_of (given_by S (K.number kind) t) (S.count t) tree) start m out.new result.next result.at)
        × (result.next ≤ n + chain_room) }
{
    let Ok(kind) = kind.kind() else {
        // Of a number past the last kind no statement gives a link.
        return Root { next: n, at: base };
    };
    match giver_of(kind) {
        Some(giver) => giver_links(members, slots, out, giver, t, n, base),
        None => Root { next: n, at: base },
    }
}
