// The links of flags: from which statements control reaches a statement.
ghost use Rattle.std.specs.Prelude.{◌≡◌, cond, true, false, [], ℕ, ◌+◌};
ghost use Rattle.table.specs.Formulas.{bit_sort};
ghost use Rattle.records.specs.Sets.{Set};
ghost use Rattle.encoding.specs.Slots.{slot, active, test, not_test};
ghost use Rattle.encoding.specs.Steps.{if_then, leads as leads_of};
ghost use Rattle.encoder_slots.specs.Places.{place_of};
ghost use Rattle.set_index.specs.Members.{names_target};
ghost use Rattle.encoder_chains.specs.Placed.{placed_link, link_numbers, numbers_of};

use crate::Link;
use crate::parts::bit_if;
use encoder_slots::start::BIT0;
use encoder_slots::{Kind, place};
use records::{Instruction, Statement};
use set_index::{is_conditional, is_plain, rests};
use table::Sort;

// If statement i of thread t executes then its test, or the contrary of it.
fn by_test(slots: &[u32], plain: bool, t: u8, i: u16) -> Link
    ensures { link_numbers result ≡ placed_link (place_of slots.now) (if_then bit_sort (slot active t i) (slot (cond plain test not_test) t i)) }
{
    let test = if plain { Kind::Test } else { Kind::NotTest };
    Link::If {
        sort: Sort::Bit,
        test: place(slots, Kind::Active, t, i, BIT0),
        effect: place(slots, test, t, i, BIT0),
    }
}

// How statement i of thread t leads to j: always, as its test comes out, or not. Few statements name j or stand before it:
// of the others nothing more is read.
pub fn leads(statement: Statement, slots: &[u32], t: u8, j: u16, i: u16) -> Option<Link>
    ensures { (S : Set) → statement ≡ S.statement t i → numbers_of result ≡ placed_link (place_of slots.now) (leads_of S [] 0 t j i) }
{
    let n = statement.number;
    let argument = statement.argument;
    let after = u32::from(i) + 1;
    let hit = argument == j;
    let next = after == u32::from(j);
    if !(hit | next) {
        return None;
    }
    if rests(n) {
        return None;
    }
    let conditional = is_conditional(n);
    // A jump to the next statement goes there either way.
    if (n == Instruction::Jmp.number()) | (conditional & (u32::from(argument) == after)) {
        return bit_if(slots, hit, t, i);
    }
    if conditional {
        if hit {
            return Some(by_test(slots, is_plain(n), t, i));
        }
        return Some(by_test(slots, !is_plain(n), t, i));
    }
    bit_if(slots, next, t, i)
}

// How statement i of thread t, of instruction n, leads to the one after it, where it is no jump to that one.
pub fn follows(n: u8, slots: &[u32], t: u8, i: u16) -> Option<Link>
    ensures { (S : Set) (j : ℕ) → n ≡ (S.statement t i).number → j ≡ i + 1 → names_target (S.statement t i) j ≡ false
        → numbers_of result ≡ placed_link (place_of slots.now) (leads_of S [] 0 t j i) }
{
    if rests(n) {
        return None;
    }
    if n == Instruction::Jmp.number() {
        return None;
    }
    if is_conditional(n) {
        return Some(by_test(slots, !is_plain(n), t, i));
    }
    bit_if(slots, true, t, i)
}

// How jump i of thread t, of instruction n, leads to the statement that it names, where this is not the one after it.
pub fn named(n: u8, slots: &[u32], t: u8, i: u16) -> Option<Link>
    ensures { (S : Set) (j : ℕ) → n ≡ (S.statement t i).number → names_target (S.statement t i) j ≡ true → (j ≡ i + 1 → ⊥)
        → numbers_of result ≡ placed_link (place_of slots.now) (leads_of S [] 0 t j i) }
{
    if n == Instruction::Jmp.number() {
        return bit_if(slots, true, t, i);
    }
    Some(by_test(slots, is_plain(n), t, i))
}
