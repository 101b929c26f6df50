// The sections of a text: a statement more, a section's end, and what a thread's line adds.
ghost use Rattle.std.specs.Prelude.{◌≡◌, ◌≤◌, ◌<◌, length, count_by};
ghost use Rattle.text_drafts.specs.Blocks.{draft_length};
ghost use Rattle.text.specs.Answers.{longest_text};
ghost use Rattle.text_lines.specs.Lines.{is_dot};
ghost use Rattle.text_reader.specs.Readers.{lines_left};
ghost use Rattle.text.specs.Readings.{Adds, Closes, TakesLine, ReadsLines, ReadsText};
ghost use Rattle.text.specs.Sections.{halt as halt_of};
ghost use Rattle.records.specs.Maps.{set_cells};

use crate::{Reading, map};
use records::instructions::is_last;
use records::{Instruction, Layout, Refusal, Refused};
use text_drafts::DRAFT;
use text_lines::Stated;
use text_reader::Reader;

// A statement more in the open section.
fn add(r: Reading, draft: &mut [u8], x: Stated) -> Reading
    ensures { Adds x r draft.old result draft.new }
{
    let t = r.ended;
    let n = text_drafts::count(r.counts, t);
    let room = r.fits & (t < Reading::THREADS) & (n < Reading::STATEMENTS);
    if room {
        text_drafts::put(draft, text_drafts::block(t, n), x);
        let mut counts = r.counts;
        counts[usize::from(t)] = n + 1;
        return Reading { counts, ..r };
    }
    Reading { fits: false, ..r }
}

// The HALT that a thread gains.
fn halt() -> Stated
    ensures { result ≡ halt_of }
{
    Stated {
        label: [0; Stated::LABEL],
        number: Instruction::Halt.number(),
        mode: 0,
        argument: 0,
        target: [0; Stated::LABEL],
    }
}

// The open section's end.
fn close(r: Reading, draft: &mut [u8]) -> Reading
    requires { r.ended < 65535 }
    ensures { Closes r draft.old result draft.new }
{
    let t = r.ended;
    let n = text_drafts::count(r.counts, t);
    let some = r.fits & (t < Reading::THREADS) & (0 < n);
    if some {
        if is_last(text_drafts::number(draft, text_drafts::block(t, n - 1))) {
            return Reading { ended: t + 1, ..r };
        }
        let s = add(r, draft, halt());
        return Reading { ended: t + 1, ..s };
    }
    Reading {
        fits: false,
        ended: t + 1,
        ..r
    }
}

// Takes a line; `left` counts the dots from it on.
fn take_line(
    l: &[u8],
    left: usize,
    r: Reading,
    draft: &mut [u8],
    keys: &mut [u32],
) -> Result<Reading, Refusal>
    requires { (r.ended < 65535) × (r.line < 65535) }
    ensures { TakesLine l.now left r draft.old keys.old result draft.new keys.new }
{
    let taken = if text_lines::is_dot(l) {
        close(r, draft)
    } else if left == 0 {
        match text_lines::cells::map_line(l)? {
            Some(cell) => map::take(r, keys, cell),
            None => r,
        }
    } else {
        match text_lines::statements::statement_line(l)? {
            Some(statement) => add(r, draft, statement),
            None => r,
        }
    };
    Ok(Reading {
        line: r.line + 1,
        ..taken
    })
}

// How many of a reader's lines end a section.
fn count_dots(lines: Reader) -> usize
    requires { length (lines_left lines) < 65536 }
    ensures { result ≡ count_by is_dot (lines_left lines.entry) }
{
    lines.filter(|l| text_lines::is_dot(l)).count()
}

// Takes the lines one by one, up to the first that is refused; threads are kept where there are 1 to 4.
fn read_lines(text: &[u8], draft: &mut [u8], keys: &mut [u32]) -> Result<Reading, Refused>
    requires { (length text.now ≤ longest_text) × (length draft.old ≡ draft_length) × (length keys.old ≡ set_cells) }
    ensures { ReadsLines text.now result draft.new keys.new }
{
    let total = count_dots(Reader::new(text, 0));
    let mut r = Reading {
        fits: 0 < total && total <= Layout::THREADS,
        ended: 0,
        counts: [0; Layout::THREADS],
        cells: 0,
        line: 0,
    };
    for l in Reader::new(text, 0) {
        let left = total - usize::from(r.ended);
        let place = r.line + 1;
        r = take_line(l, left, r, draft, keys).map_err(|refusal| Refused { refusal, place })?;
    }
    Ok(r)
}

// Keeps what the lines of a text hold; 1 refuses a text above 16,384 bytes.
pub fn read(
    text: &[u8],
    draft: &mut [u8; DRAFT],
    keys: &mut [u32; Layout::MAP_CELLS],
) -> Result<Reading, Refused>
    ensures { ReadsText text.now result draft.new keys.new }
{
    if Reading::TEXT < text.len() {
        return Err(Refusal::TextLength.into());
    }
    read_lines(text, draft, keys)
}
