// The links of chains over threads, checkpoints and choices, and a statement's link to bit 1.
ghost use Rattle.std.specs.Prelude.{◌≡◌, cond, ◌+◌};
ghost use Rattle.encoder_slots.specs.Kinds.{number_of};
ghost use Rattle.encoder_slots.specs.Places.{place_from};
ghost use Rattle.encoder_chains.specs.Placed.{no_link, if_link, bit_link, link_numbers, numbers_of};
ghost use Rattle.encoding.specs.Slots.{kind_number, choice, active, permitted_first, halted, bit_one};
ghost use Rattle.table.specs.Formulas.{bit_sort, word_sort, AND};

use crate::Link;
use encoder_slots::start::{BIT0, BIT1, WORD0};
use encoder_slots::{Kind, place};
use table::Sort;

// Where statement i of thread t counts: if it executes then bit 1.
pub fn bit_if(slots: &[u32], counts: bool, t: u8, i: u16) -> Option<Link>
    ensures { numbers_of result ≡ cond counts (if_link bit_sort (place_from slots.now (kind_number active) t i 0) (place_from slots.now (kind_number bit_one) 0 0 1)) no_link }
{
    if counts {
        return Some(Link::If {
            sort: Sort::Bit,
            test: place(slots, Kind::Active, t, i, BIT0),
            effect: place(slots, Kind::BitOne, 0, 0, BIT1),
        });
    }
    None
}

// If thread t, of so many threads, flushes then its word of kind `effect`.
pub fn flushed(threads: u8, slots: &[u32], effect: Kind, t: u8) -> Link
    ensures { link_numbers result ≡ if_link word_sort (place_from slots.now (kind_number choice) 0 (threads + t) 0) (place_from slots.now (number_of effect) t 0 2) }
{
    Link::If {
        sort: Sort::Word,
        test: place(
            slots,
            Kind::Choice,
            0,
            u16::from(threads) + u16::from(t),
            BIT0,
        ),
        effect: place(slots, effect, t, 0, WORD0),
    }
}

// If choice j is taken then whether it is permitted and none before it is taken.
pub fn one_permitted(slots: &[u32], j: u8) -> Link
    ensures { link_numbers result ≡ if_link bit_sort (place_from slots.now (kind_number choice) 0 j 0) (place_from slots.now (kind_number permitted_first) 0 j 0) }
{
    Link::If {
        sort: Sort::Bit,
        test: place(slots, Kind::Choice, 0, u16::from(j), BIT0),
        effect: place(slots, Kind::PermittedFirst, 0, u16::from(j), BIT0),
    }
}

// And thread t has halted.
pub fn halts(slots: &[u32], t: u8) -> Link
    ensures { link_numbers result ≡ bit_link AND (place_from slots.now (kind_number halted) t 0 0) }
{
    Link::And(place(slots, Kind::Halted, t, 0, BIT0))
}
