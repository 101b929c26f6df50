// The listing program: reads a set text from standard input and prints its run, in which the lowest thread that can execute does so,
// else the lowest that can flush. What it prints is decided by `list_text`; the rest is input and output.
#![tactic(auto)]

ghost use Rattle.std.specs.Prelude.{◌≡◌, ◌<◌, IfOk, length, take};
ghost use Rattle.std.specs.Io.{ReadsAtMost};
ghost use Rattle.std.specs.Io.KnownBytes.{Consumes, IsAtEnd};
ghost use Rattle.listing_output.specs.Printed.{count, printed};
ghost use Rattle.listing.specs.Texts.{listing_of};

use machine::Machine;
use records::{Layout, Statement};
use std::io;
use std::io::{Read, Write};
use text::Reading;

// One byte more than a text may have shows that it is too long.
const INPUT: usize = Reading::TEXT + 1;
// Room for every listing.
const LISTING: usize = 64 * Machine::STEPS + 16;

// Prints the listing of a set text from the start of an output on, and gives how many bytes it printed.
fn list_text(text: &[u8], out: &mut [u8]) -> usize
    ensures { (result ≡ count (listing_of text.now) out.old)
        × (out.new ≡ printed (listing_of text.now) out.old) }
{
    let mut set = [0u8; Layout::SET];
    let mut map = [0u8; Layout::MAP];
    match text::read(text, &mut set, &mut map) {
        Ok(counts) => {
            let size = Statement::SIZE * usize::from(counts.statements);
            let length = Layout::CELL * usize::from(counts.cells);
            listing_output::list(&set[..size], &map[..length], out)
        }
        Err(refused) => listing_output::refused(refused.refusal.number(), out),
    }
}

// Reads until the buffer is full or the input ends, and gives how many bytes it put at the buffer's start.
// A loop of its own: `read_to_end` fills a `Vec`, and there is no heap.
fn read_full<R: Read>(input: &mut R, buf: &mut [u8]) -> io::Result<usize>
    ensures bound { ReadsAtMost result buf.new }
    ensures bytes { IfOk result (λ n. Consumes (R.remaining input.old) (R.remaining input.new) (take n buf.new)) }
    ensures end { IfOk result (λ n. n < length buf.new → IsAtEnd (R.remaining input.new)) }
{
    let mut done = 0;
    while done < buf.len() {
        let n = input.read(&mut buf[done..])?;
        if n == 0 {
            break;
        }
        done += n;
    }
    Ok(done)
}

fn main(rt: HostRuntime) -> io::Result<()> {
    let mut text = [0u8; INPUT];
    let mut out = [0u8; LISTING];
    let size = read_full(&mut rt.stdin(), &mut text)?;
    let length = list_text(&text[..size], &mut out);
    rt.stdout().write_all(&out[..length])
}
