// Runs document 01's samples, the cases of request 2026-05 and document 002's litmus tests through the proved reader, simulation, replay
// and encoder, and prints answers and traces, and of each litmus test how many runs it has and how many lead to its outcome.
// The file stdout is what the second simulator prints: `cargo run -q --release -p reference --bin cases` in rust/.
#![tactic(auto)]

mod data;

ghost use Rattle.std.specs.Prelude.{◌≤◌, ◌<◌, IfOk, length};

use machine::{End, Machine, Run};
use records::{Instruction, Refused};
use std::io;
use std::io::Write;

// ---- litmus tests: all runs of one by the proved simulation, how many there are, and how many lead to its outcome. A thread's HALT
// changes no register, so each run is followed to where only HALTs are left, and these are taken last, by thread.

// Choices of a run, and of a run with its HALTs.
const RUN: usize = 36;

const LONGEST: usize = 40;
// The most threads of a test.
const THREADS: usize = 4;
// Bytes of the trace of such a run.
const TRACE: usize = LONGEST * Machine::STEP;
// More visits than any of the tests takes.
const VISITS: u64 = 10000000;
// The choice that flushes thread 0.
const FLUSH: u8 = 128;
// Any word will do.
const ANY: u8 = 255;

// A litmus test: a set, a map, and the accu and the mem of each thread in the outcome that is asked for.
#[derive(Clone, Copy)]
struct Test<'a> {
    set: &'a [u8],
    map: &'a [u8],
    asked: &'a [u8],
}

// A search through all schedules in order: the schedule up to the choice that is tried, its place, and what was found before.
#[derive(Clone, Copy)]
struct Search {
    schedule: [u8; LONGEST],
    place: usize,
    runs: u64,
    outcomes: u64,
}

// What a schedule comes to: its last choice is not permitted or a HALT, it goes on, or only HALTs are left.
#[derive(Clone, Copy)]
enum Visit {
    Denied,
    GoesOn,
    Ends,
    Outcome,
}

impl<'a> Test<'a> {
    fn threads(self) -> usize {
        self.asked.len() / 2
    }

    // The schedule up to a place is permitted, and its last choice is no HALT.
    fn permits(self, schedule: [u8; LONGEST], place: usize) -> bool {
        if LONGEST <= place {
            return false;
        }
        let mut trace = [0u8; TRACE];
        match simulation::simulate(self.set, self.map, &schedule[..place + 1], &mut trace) {
            Ok(_) => {
                let (steps, _) = trace.as_chunks::<{ Machine::STEP }>();
                steps[place][1] != Instruction::Halt.number()
            }
            Err(_) => false,
        }
    }

    // Whether the steps of the threads' HALTs have the outcome: accu and mem stand in them.
    fn has_outcome(self, halts: &[[u8; Machine::STEP]]) -> bool {
        let (asked, _) = self.asked.as_chunks::<2>();
        asked.iter().zip(halts).all(|(words, step)| {
            is_asked(words[0], base::word_at(step, 8))
                && is_asked(words[1], base::word_at(step, 10))
        })
    }

    // With the HALTs of all threads after it the schedule runs to the machine's end, or it goes on.
    fn ends(self, mut schedule: [u8; LONGEST], place: usize) -> Visit {
        let threads = self.threads();
        if THREADS < threads || RUN <= place {
            return Visit::Denied;
        }
        let halts = place + 1;
        for (choice, thread) in schedule[halts..].iter_mut().zip(0..) {
            *choice = thread;
        }
        let mut trace = [0u8; TRACE];
        let schedule = &schedule[..halts + threads];
        match simulation::simulate(self.set, self.map, schedule, &mut trace) {
            Ok(
                Run {
                    steps: _,
                    end: End::Code(_),
                },
            ) => {
                let (steps, _) = trace.as_chunks::<{ Machine::STEP }>();
                if self.has_outcome(&steps[halts..]) {
                    Visit::Outcome
                } else {
                    Visit::Ends
                }
            }
            _ => Visit::GoesOn,
        }
    }

    fn visit(self, schedule: [u8; LONGEST], place: usize) -> Visit {
        if self.permits(schedule, place) {
            self.ends(schedule, place)
        } else {
            Visit::Denied
        }
    }

    // Searches all runs.
    fn all_runs(self) -> Search {
        let mut search = Search {
            schedule: [0; LONGEST],
            place: 0,
            runs: 0,
            outcomes: 0,
        };
        for _ in 0..VISITS {
            match search.next(self) {
                Some(next) => search = next,
                None => return search,
            }
        }
        search
    }
}

// A word is the one asked for.
fn is_asked(asked: u8, word: u16) -> bool {
    asked == ANY || word == u16::from(asked)
}

impl Search {
    fn choice(self) -> u8 {
        self.schedule.get(self.place).copied().unwrap_or(0)
    }

    fn with_choice(mut self, choice: u8) -> Search {
        if self.place < LONGEST {
            self.schedule[self.place] = choice;
        }
        self
    }

    // The next choice at the same place: executes by thread, then flushes by thread.
    fn further(self, threads: u8) -> Search {
        let next = self.choice().wrapping_add(1);
        self.with_choice(if next == threads { FLUSH } else { next })
    }

    // All choices at this place were tried: the next one at the place before, None where there is none.
    fn back(self, threads: u8) -> Option<Search> {
        let place = self.place.checked_sub(1)?;
        Some(Search { place, ..self }.further(threads))
    }

    // The first choice at the next place.
    fn deeper(self) -> Search {
        let place = self.place.wrapping_add(1);
        Search { place, ..self }.with_choice(0)
    }

    // Tries a choice: None once all were tried.
    fn next(self, test: Test) -> Option<Search> {
        let threads = (test.threads() % 256) as u8;
        if self.choice() == FLUSH.wrapping_add(threads) {
            return self.back(threads);
        }
        let found = test.visit(self.schedule, self.place);
        let next = match found {
            Visit::GoesOn => return Some(self.deeper()),
            Visit::Denied => self,
            Visit::Ends => Search {
                runs: self.runs.wrapping_add(1),
                ..self
            },
            Visit::Outcome => Search {
                runs: self.runs.wrapping_add(1),
                outcomes: self.outcomes.wrapping_add(1),
                ..self
            },
        };
        Some(next.further(threads))
    }
}

// ---- answers and traces

// A line: a name with its suffix, then numbers.
fn show_line<W: Write>(out: &mut W, name: &[u8], suffix: &[u8], numbers: &[u64]) -> io::Result<()> {
    out.write_all(name)?;
    out.write_all(suffix)?;
    for number in numbers {
        write!(out, " {number}")?;
    }
    out.write_all(b"\n")
}

// Number and place of a refusal.
fn refusal(refused: Refused) -> (u64, u64) {
    (
        u64::from(refused.refusal.number()),
        u64::from(refused.place),
    )
}

// Number, place, end (0 code, 1 stuck, 2 open), code, steps.
fn show_answer<W: Write>(
    out: &mut W,
    name: &[u8],
    suffix: &[u8],
    answer: Result<Run, Refused>,
) -> io::Result<()> {
    let numbers = match answer {
        Ok(run) => {
            let (end, code) = match run.end {
                End::Code(code) => (0, u64::from(code)),
                End::Stuck => (1, 0),
                End::Open => (2, 0),
            };
            [0, 0, end, code, u64::from(run.steps)]
        }
        Err(refused) => {
            let (number, place) = refusal(refused);
            [number, place, 0, 0, 0]
        }
    };
    show_line(out, name, suffix, &numbers)
}

// A line for each trace step.
fn show_trace<W: Write>(out: &mut W, trace: &[u8]) -> io::Result<()> {
    for step in trace.chunks_exact(Machine::STEP) {
        for (i, byte) in step.iter().enumerate() {
            if 0 < i {
                out.write_all(b" ")?;
            }
            write!(out, "{byte}")?;
        }
        out.write_all(b"\n")?;
    }
    Ok(())
}

// A refusal writes no trace, so there is none to show or replay.
fn show_over<W: Write>(
    out: &mut W,
    name: &[u8],
    set: &[u8],
    map: &[u8],
    schedule: &[u8],
    trace: &mut [u8],
) -> io::Result<()> {
    let answer = simulation::simulate(set, map, schedule, trace);
    show_answer(out, name, b":", answer)?;
    if answer.is_ok() {
        show_trace(out, trace)?;
        show_answer(out, name, b" replay:", replay::replay(set, map, trace))?;
    }
    Ok(())
}

// The buffer has room for a step more than simulation takes: that refusal is a case too. No case has more steps.
fn show<W: Write>(
    out: &mut W,
    name: &[u8],
    set: &[u8],
    map: &[u8],
    schedule: &[u8],
) -> io::Result<()> {
    if 65 < schedule.len() {
        return Ok(());
    }
    let mut buffer = [0u8; 65 * Machine::STEP];
    let size = Machine::STEP * schedule.len();
    show_over(out, name, set, map, schedule, &mut buffer[..size])
}

// Number, place, statements, cells.
fn show_text<W: Write>(out: &mut W, name: &[u8], source: &[u8]) -> io::Result<()> {
    let mut set = [0u8; 64];
    let mut map = [0u8; 64];
    let answer = text::read(source, &mut set, &mut map);
    let numbers = match answer {
        Ok(counts) => [0, 0, u64::from(counts.statements), u64::from(counts.cells)],
        Err(refused) => {
            let (number, place) = refusal(refused);
            [number, place, 0, 0]
        }
    };
    show_line(out, name, b":", &numbers)
}

// A thread of one HALT, and a comment up to the text's end.
fn sample_9_texts<W: Write>(out: &mut W) -> io::Result<()> {
    let mut source = [b'x'; 16385];
    source[..8].copy_from_slice(b"HALT\n.\n#");
    show_text(out, b"sample 9 text of 16384 bytes", &source[..16384])?;
    show_text(out, b"sample 9 text of 16385 bytes", &source)
}

// Of the table of JMP 0: number, place, records.
fn show_bound<W: Write>(out: &mut W, name: &[u8], bound: u64) -> io::Result<()> {
    let answer = encoder::table_size(b"\x00\x09\x00\x00\x00\x00\x00\x00", b"", bound);
    let numbers = match answer {
        Ok(records) => [0, 0, u64::from(records)],
        Err(refused) => {
            let (number, place) = refusal(refused);
            [number, place, 0]
        }
    };
    show_line(out, name, b":", &numbers)
}

fn sample_9_bounds<W: Write>(out: &mut W) -> io::Result<()> {
    show_bound(out, b"sample 9 table for K 64", 64)?;
    show_bound(out, b"sample 9 table for K 65", 65)?;
    show_bound(out, b"sample 9 table for K 0", 0)?;
    show_bound(out, b"sample 9 table for K 1", 1)
}

fn show_litmus<W: Write>(out: &mut W, name: &[u8], test: Test) -> io::Result<()> {
    let Search { runs, outcomes, .. } = test.all_runs();
    out.write_all(name)?;
    writeln!(out, ": {runs} runs, {outcomes} with the outcome")
}

// ---- the cases of data.rt, which says what a case is made of

// The first part of some and the rest: its length in two bytes, then its bytes. Where no whole part is left both are empty.
fn part(cases: &[u8]) -> (&[u8], &[u8])
    ensures shorter { length result.1.now ≤ length cases.now }
    ensures less { 0 < length cases.now → length result.1.now < length cases.now }
{
    let none: (&[u8], &[u8]) = (&[], &[]);
    match cases.split_at_checked(2) {
        Some((size, rest)) => rest
            .split_at_checked(usize::from(base::word_at(size, 0)))
            .unwrap_or(none),
        None => none,
    }
}

// Shows the first of some cases, and gives the others: how many of all runs of its set lead to an outcome, and the run of a schedule,
// each where the case has it.
fn show_case<'a, W: Write>(out: &mut W, cases: &'a [u8]) -> io::Result<&'a [u8]>
    ensures { IfOk result (λ rest. 0 < length cases.now → length rest.now < length cases.now) }
{
    let (name, rest) = part(cases);
    let (set, rest) = part(rest);
    let (map, rest) = part(rest);
    let (asked, rest) = part(rest);
    let (short, rest) = part(rest);
    let (schedule, rest) = part(rest);
    if !asked.is_empty() {
        show_litmus(out, name, Test { set, map, asked })?;
    }
    if !schedule.is_empty() {
        show(out, short, set, map, schedule)?;
    }
    Ok(rest)
}

// Shows all of them.
fn show_cases<W: Write>(out: &mut W, cases: &[u8]) -> io::Result<()> {
    let mut left = cases;
    while !left.is_empty() {
        left = show_case(out, left)?;
    }
    Ok(())
}

fn main(rt: HostRuntime) -> io::Result<()> {
    let mut out = rt.stdout();
    show_cases(&mut out, &data::SAMPLES)?;
    sample_9_texts(&mut out)?;
    sample_9_bounds(&mut out)?;
    show_cases(&mut out, &data::LITMUS)
}
