// Reading a set text: its statement records and map records, or the refusal.
#![tactic(auto)]

mod map;
mod sections;
mod threads;

ghost use Rattle.std.specs.Prelude.{◌≡◌, ⊤, true, cond, Ok, Err, IfOk, MatchResult, List, ◌*◌, ◌≤◌, length, take};
ghost use Rattle.records.specs.declared.Cell.{Cell};
ghost use Rattle.records.specs.declared.refusals.Refusal.TheVariants.{Map};
ghost use Rattle.text.specs.Answers.{map_fits, output_by, answer as answer_of, set_output, map_output};
ghost use Rattle.text.specs.Readings.{Sound, ThreadsStand, CellsStand, threads_judged, Judges, Few, roomed, set_part, map_part};
ghost use Rattle.text.specs.Records.{map_bytes};
ghost use Rattle.text.specs.Sections.{Threads};
ghost use Rattle.records.specs.Sets.{most_threads, record_length, most_records};
ghost use Rattle.records.specs.Maps.{cell_length, set_cells};

use records::{Layout, Refusal, Refused, Statement};
use text_drafts::DRAFT;

// How many statements and map cells a text has.
#[derive(Clone, Copy, Debug, PartialEq, Eq)]
pub struct Counts {
    pub statements: u16,
    pub cells: u16,
}

// What is kept of the lines read so far: whether the threads fit, how many sections have ended, how many statements each thread has,
// how many cells the map has, and how many lines there are.
#[derive(Clone, Copy)]
pub struct Reading {
    pub fits: bool,
    pub ended: u16,
    pub counts: [u16; Layout::THREADS],
    pub cells: u16,
    pub line: u32,
}

impl Reading {
    // The most bytes of a text.
    pub const TEXT: usize = 16384;
    // Document 01's limits of a set and its map, as numbers of this struct's fields.
    pub const THREADS: u16 = Layout::THREADS as u16;

    pub const STATEMENTS: u16 = Layout::STATEMENTS;

    pub const CELLS: u16 = Layout::MAP_CELLS as u16;
    // The count that stands for more cells than that.
    pub const MORE_CELLS: u16 = Reading::CELLS + 1;
}

// Whether 4, 5 or 6 refuses the threads.
fn threads_fit(draft: &[u8], r: Reading) -> Result<(), Refusal>
    ensures judged { (T : Threads) → ThreadsStand r draft.now T → result ≡ threads_judged T }
    ensures fit { IfOk result (λ _. (r.fits ≡ true) × (r.ended ≤ most_threads)) }
{
    if r.ended == 0 || Reading::THREADS < r.ended {
        return Err(Refusal::Threads);
    }
    if !r.fits {
        return Err(Refusal::Statements);
    }
    if !threads::labels_fit(draft, r.ended, r.counts) {
        return Err(Refusal::Label);
    }
    Ok(())
}

// Whether 8 refuses the map; where it does not, its records are in work memory.
fn map_fits(keys: &[u32], r: Reading, map: &mut [u8]) -> Result<(), Refusal>
    requires { (length keys.now ≡ set_cells) × (length map.old ≡ cell_length * set_cells) }
    ensures judged { (cs : List Cell) → CellsStand r keys.now cs → result ≡ cond (map_fits cs) (Ok tt) (Err Map) }
    ensures written { (cs : List Cell) → CellsStand r keys.now cs → IfOk result (λ _. (take (cell_length * r.cells) map.new ≡ map_bytes cs) × (r.cells ≤ set_cells) × (length cs ≡ r.cells)) }
{
    let n = usize::from(r.cells);
    if Layout::MAP_CELLS < n {
        return Err(Refusal::Map);
    }
    map::write(keys, n, map);
    if !map::fits(map, n) {
        return Err(Refusal::Map);
    }
    Ok(())
}

// The checks of the whole text but that of room, with the records written into work memory.
fn judge(
    draft: &[u8],
    keys: &[u32],
    r: Reading,
    set: &mut [u8],
    map: &mut [u8],
) -> Result<Counts, Refused>
    requires { Sound r draft.now × (length keys.now ≡ set_cells) × (length set.old ≡ record_length * most_records) × (length map.old ≡ cell_length * set_cells) }
    ensures { Judges r draft.now keys.now result set.new map.new }
{
    threads_fit(draft, r)?;
    let statements = threads::assemble(draft, r.ended, r.counts, set);
    if !threads::checkpoints_fit(set, statements) {
        return Err(Refusal::Checkpoints.into());
    }
    map_fits(keys, r, map)?;
    Ok(Counts {
        statements,
        cells: r.cells,
    })
}

// Writes the records that are counted, if there is room for all of them.
fn finish(
    counts: Counts,
    records: &[u8],
    cells: &[u8],
    set: &mut [u8],
    map: &mut [u8],
) -> Result<Counts, Refused>
    requires { Few counts × (length records.now ≡ record_length * most_records) × (length cells.now ≡ cell_length * set_cells) }
    ensures { (result ≡ roomed (length set.old) (length map.old) (Ok counts))
        × (set.new ≡ output_by result (set_part (Ok counts) records.now) set.old)
        × (map.new ≡ output_by result (map_part (Ok counts) cells.now) map.old) }
{
    let size = Statement::SIZE * usize::from(counts.statements);
    let length = Layout::CELL * usize::from(counts.cells);
    if set.len() < size || map.len() < length {
        return Err(Refusal::Room.into());
    }
    base::place(set, 0, &records[..size]);
    base::place(map, 0, &cells[..length]);
    Ok(counts)
}

// Reads a set text, and writes its statement records and its map records.
pub fn read(text: &[u8], set: &mut [u8], map: &mut [u8]) -> Result<Counts, Refused>
    ensures { (result ≡ answer_of text.now (length set.old) (length map.old))
        × (set.new ≡ set_output result text.now set.old)
        × (map.new ≡ map_output result text.now map.old) }
{
    let mut draft = [0u8; DRAFT];
    let mut keys = [0u32; Layout::MAP_CELLS];
    let r = sections::read(text, &mut draft, &mut keys)?;
    let mut records = [0u8; Layout::SET];
    let mut cells = [0u8; Layout::MAP];
    let counts = judge(&draft, &keys, r, &mut records, &mut cells)?;
    finish(counts, &records, &cells, set, map)
}
