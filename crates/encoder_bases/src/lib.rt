// The bases of a table's trees (crate encoding, `base`), written: at most four records each.
#![tactic(auto)]

ghost use Rattle.std.specs.Prelude.{◌≡◌, false, List, ℕ, ◌≤◌};
ghost use Rattle.records.specs.Sets.{Set};
ghost use Rattle.encoding.specs.Slots.{kind_at, kind_number, flag};
ghost use Rattle.encoding.specs.Steps.{base as base_of};
ghost use Rattle.encoder_slots.specs.Places.{place_of};
ghost use Rattle.encoder_bases.specs.SmallTrees.{Puts};
ghost use Rattle.encoder_slots.specs.Places.{of_statement};
ghost use Rattle.table.specs.Repeats.{last_index};
ghost use Rattle.encoder_slots.specs.Pieces.{tree_room};

mod choices;
mod state;
mod statements;
mod written;

use choices::{put_choice, put_none_before, put_permitted_first};
use encoder_slots::start::{BIT0, BIT1, WORD0};
use encoder_slots::{Kind, NamesKind, place};
use state::{put_flush_value, put_full, put_may_execute, put_memory, put_shut};
pub use statements::{
    put_active, put_address, put_argument, put_flag, put_loaded, put_not_test, put_result,
    put_swaps, put_test,
};
use table::{Operation, Sort};
pub use written::{Load, WrittenTree, load_of};
use written::{put_binary, put_constant, put_none, put_previous};

// Writes the base of the tree of a kind that is not of statements for a and b, its records from index n on; that of a flag is `put_flag`.
// A number past the last kind has the base of CHOICE. The kinds that the last arm names have functions of their own, and come here in no call.
pub fn put_base<K: NamesKind>(
    slots: &[u32],
    out: &mut [u8],
    threads: u8,
    step: u8,
    kind: K,
    a: u8,
    b: u16,
    n: u32,
) -> WrittenTree
    ensures { ((S : Set) (cs : List ℕ) → S.threads ≡ threads → of_statement (K.number kind) ≡ false → (K.number kind ≡ kind_number flag → ⊥) → n ≤ last_index
        → Puts result (place_of slots.now) n (base_of S cs step (kind_at (K.number kind)) a b) out.old out.new) × (result.count ≤ tree_room) }
{
    let Ok(kind) = kind.kind() else {
        return put_choice(out, threads, step, b, n);
    };
    match kind {
        Kind::Choice => put_choice(out, threads, step, b, n),
        Kind::Opening => put_none(slots, Kind::BitOne, 0, 0, BIT1),
        Kind::Shut => put_shut(slots, out, b, n),
        Kind::Barred => put_none(slots, Kind::BitZero, 0, 0, BIT0),
        Kind::Held => {
            let mark = place(slots, Kind::Mark, a, b, BIT0);
            let shut = place(slots, Kind::Shut, 0, b, BIT0);
            put_binary(out, n, Operation::And, Sort::Bit, mark, shut)
        }
        Kind::Waits => put_none(slots, Kind::Halted, a, 0, BIT0),
        Kind::MayExecute => put_may_execute(slots, out, a, n),
        Kind::None => put_none_before(slots, out, b, n),
        Kind::PermittedFirst => put_permitted_first(slots, out, threads, b, n),
        Kind::OnePermitted => put_none(slots, Kind::BitZero, 0, 0, BIT0),
        Kind::FlushTo => put_none(slots, Kind::WordZero, 0, 0, WORD0),
        Kind::WriteTo => put_previous(slots, Kind::WriteTo, Kind::FlushTo, b, WORD0),
        Kind::FlushValue => put_flush_value(slots, out, threads, n),
        Kind::WriteValue => put_previous(slots, Kind::WriteValue, Kind::FlushValue, b, WORD0),
        Kind::Raised => put_none(slots, Kind::BitZero, 0, 0, BIT0),
        Kind::Exits => put_previous(slots, Kind::Exits, Kind::Ended, b, BIT0),
        Kind::Codes => put_previous(slots, Kind::Codes, Kind::Code, b, WORD0),
        Kind::SharedMemory => put_memory(slots, out, threads, n),
        Kind::Val => put_none(slots, Kind::Val, a, 0, WORD0),
        Kind::Adr => put_none(slots, Kind::Adr, a, 0, WORD0),
        Kind::Mem => put_none(slots, Kind::Mem, a, 0, WORD0),
        Kind::Accu => put_none(slots, Kind::Accu, a, 0, WORD0),
        Kind::Full => put_full(slots, out, threads, a, n),
        Kind::Halted => put_none(slots, Kind::Halted, a, 0, BIT0),
        Kind::Mark => {
            let held = place(slots, Kind::Held, a, b, BIT0);
            let raised = place(slots, Kind::Raised, a, b, BIT0);
            put_binary(out, n, Operation::Or, Sort::Bit, held, raised)
        }
        Kind::Halts => put_none(slots, Kind::BitOne, 0, 0, BIT1),
        Kind::Ended => {
            let halts = place(slots, Kind::Halts, 0, 0, BIT0);
            let exits = place(slots, Kind::Exits, 0, u16::from(threads), BIT0);
            put_binary(out, n, Operation::Or, Sort::Bit, halts, exits)
        }
        Kind::Code => put_none(slots, Kind::Codes, 0, u16::from(threads), WORD0),
        Kind::BitZero => put_none(slots, Kind::BitZero, 0, 0, BIT0),
        Kind::BitOne => put_none(slots, Kind::BitOne, 0, 0, BIT1),
        Kind::WordZero => put_none(slots, Kind::WordZero, 0, 0, WORD0),
        Kind::WordOne => put_constant(out, n, 1),
        Kind::Active
        | Kind::Address
        | Kind::Loaded
        | Kind::Swaps
        | Kind::Result
        | Kind::Test
        | Kind::NotTest
        | Kind::Flag
        | Kind::Argument => put_choice(out, threads, step, b, n),
    }
}
