// The places of a table's values in an array, and the kinds by number.
#![tactic(auto)]

ghost use Rattle.std.specs.Prelude.{◌≡◌, ◌<◌, ◌≤◌, length, true};
ghost use Rattle.base.specs.Below.{number};
ghost use Rattle.table.specs.Programs.{put};
ghost use Rattle.encoding.specs.Slots.{slot, same, kind_at, kind_count};
ghost use Rattle.encoder_slots.specs.Kinds.{number_of};
ghost use Rattle.encoder_slots.specs.Places.{wide, width, begin, index_of, fits, kept_at, place_from, place_of, size};
ghost use Rattle.records.specs.Sets.{most_threads};

mod kinds;
pub mod start;

pub use kinds::{Kind, NamesKind, NoKind};
use records::Layout;

// The most records of one value: a tree of four and a link for each statement of a thread.
const ENTRY: u32 = 4 + (Layout::STATEMENTS as u32);

// The most records of a kind's values for one thread, and for all threads.
pub const LINE: u32 = (Layout::STATEMENTS as u32) * ENTRY;

pub const BLOCK: u32 = (Layout::THREADS as u32) * LINE;

// The most threads: each kind has so many rows.
pub const THREADS: u8 = Layout::THREADS as u8;

// The length of the rows of a kind that has no value for each statement: one more than there are choices.
const NARROW: u16 = 2 * (Layout::THREADS as u16) + 1;

// The rows of such a kind, and what those of a kind of statements have more.
const NARROW_ROWS: usize = Layout::THREADS * (NARROW as usize);

const WIDE_MORE: usize = Layout::THREADS * ((Layout::STATEMENTS - NARROW) as usize);

// How many kinds have a value for each statement.
const WIDE_KINDS: usize = 9;

// How many places there are.
pub const SIZE: usize = Kind::COUNT * NARROW_ROWS + WIDE_KINDS * WIDE_MORE;

// Whether a kind has a value for each statement.
fn wide(kind: Kind) -> bool
    ensures { result ≡ wide (number_of kind) }
{
    matches!(
        kind,
        Kind::Active
            | Kind::Address
            | Kind::Loaded
            | Kind::Swaps
            | Kind::Result
            | Kind::Test
            | Kind::NotTest
            | Kind::Argument
            | Kind::Flag
    )
}

// The length of a kind's rows.
fn width(kind: Kind) -> u16
    ensures { result ≡ width (number_of kind) }
{
    if wide(kind) {
        return Layout::STATEMENTS;
    }
    NARROW
}

// How many kinds before this one have a value for each statement.
fn wide_before(kind: Kind) -> u8
    ensures { result ≡ number (number_of kind) wide }
{
    let at = kind as u8;
    if at <= Kind::Active as u8 {
        return 0;
    }
    if at <= Kind::Address as u8 {
        return 1;
    }
    if at <= Kind::FlushTo as u8 {
        return at - Kind::OnePermitted as u8;
    }
    if at <= Kind::Flag as u8 {
        return 7;
    }
    8
}

// Where the rows of a kind begin, without a loop: a caller who names the kind has a constant once compiled.
fn begin(kind: Kind) -> usize
    ensures { result ≡ begin (number_of kind) }
{
    NARROW_ROWS * (kind as usize) + WIDE_MORE * usize::from(wide_before(kind))
}

// Whether a kind has a value for a and b.
fn fits(kind: Kind, a: u8, b: u16) -> bool
    ensures { result ≡ fits (number_of kind) a b }
{
    (a < THREADS) & (b < width(kind))
}

// The index of a kind's value for a and b, which it has.
fn index_of(kind: Kind, a: u8, b: u16) -> usize
    requires { fits (number_of kind) a b ≡ true }
    ensures { (result ≡ index_of (number_of kind) a b) × (result < size) }
{
    begin(kind) + (usize::from(width(kind)) * usize::from(a) + usize::from(b))
}

// The number kept where the rows of a number would stand that names no kind: they would follow those of the last kind.
fn kept_past(slots: &[u32], number: u8, a: u8, b: u16) -> u32
    requires { kind_count ≤ number }
    ensures { result ≡ kept_at slots.now number a b }
{
    if THREADS <= a || NARROW <= b {
        return 0;
    }
    let rows = NARROW_ROWS * usize::from(number) + WIDE_MORE * WIDE_KINDS;
    let i = rows + (usize::from(NARROW) * usize::from(a) + usize::from(b));
    slots.get(i).copied().unwrap_or(0)
}

// The number kept for a kind's value for a and b.
fn kept<K: NamesKind>(slots: &[u32], kind: K, a: u8, b: u16) -> u32
    ensures { result ≡ kept_at slots.now (K.number kind) a b }
{
    let kind = match kind.kind() {
        Ok(kind) => kind,
        Err(none) => return kept_past(slots, none.0, a, b),
    };
    if !fits(kind, a, b) {
        return 0;
    }
    let i = index_of(kind, a, b);
    // A caller whose array has this length needs no test here once compiled.
    if slots.len() == SIZE {
        return slots[i];
    }
    slots.get(i).copied().unwrap_or(0)
}

// The record of a kind's value for a and b, which lies at `start` unless it was set.
pub fn place<K: NamesKind>(slots: &[u32], kind: K, a: u8, b: u16, start: u64) -> u64
    ensures { result ≡ place_from slots.now (K.number kind) a b start }
{
    let number = kept(slots, kind, a, b);
    if number == 0 {
        return start;
    }
    u64::from(number) - 1
}

// Sets the record of a kind's value for a and b, if there is a place for it; a number that names no kind has none.
pub fn set_place<K: NamesKind>(slots: &mut [u32], kind: K, a: u8, b: u16, index: u64)
    ensures { (length slots.new ≡ length slots.old)
        × (length slots.old ≡ size → K.number kind < kind_count → a < most_threads → b < width (K.number kind) → index < 4294967295
        → place_of slots.new ≡ put same (place_of slots.old) (slot (kind_at (K.number kind)) a b) index) }
{
    let Ok(kind) = kind.kind() else {
        return;
    };
    if fits(kind, a, b) & (slots.len() == SIZE) {
        slots[index_of(kind, a, b)] = ((index % 4294967296 + 1) % 4294967296) as u32;
    }
}
