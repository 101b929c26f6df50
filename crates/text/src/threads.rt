// A thread's statements once all are read: its labels, the pcs that they become, and its records.
ghost use Rattle.std.specs.Prelude.{◌≡◌, ℕ, ◌+◌, ◌*◌, ◌≤◌, ◌<◌, ◌++◌, length, take, get_or, leb};
ghost use Rattle.std.specs.List.{list_all};
ghost use Rattle.base.specs.Below.{least};
ghost use Rattle.base.specs.Bytes.{same};
ghost use Rattle.text.specs.Answers.{doubled_at, target_fits, thread_fits, labels_fit, checkpoints_fit};
ghost use Rattle.text_drafts.specs.Blocks.{block_at};
ghost use Rattle.text.specs.Drafts.{drafted, threads_in};
ghost use Rattle.text.specs.Records.{joined, is_named, argument_of, statement_bytes, set_bytes, statements};
ghost use Rattle.records.specs.Sets.{most_threads, most_statements, record_length, most_records};

use crate::Reading;
use records::instructions::is_jump;
use records::{Layout, Statement};
use text_lines::Stated;

// Whether a label is there.
fn is_named(label: &[u8]) -> bool
    ensures { result ≡ is_named label.now }
{
    let none = [0u8; Stated::LABEL];
    !text_drafts::same_label(label, &none)
}

// The first of thread t's first n statements that has a label, n where none has.
fn find(draft: &[u8], t: u16, n: u16, label: &[u8]) -> u16
    ensures { result ≡ least n (λ p. same (block_at draft.now (most_statements * t + p)).label label.now) }
{
    for p in 0..n {
        let other = text_drafts::label(draft, text_drafts::block(t, p));
        if text_drafts::same_label(other, label) {
            return p;
        }
    }
    n
}

// The argument of thread t's statement p.
fn argument(draft: &[u8], t: u16, n: u16, p: u16) -> u16
    requires { p < n }
    ensures { result ≡ argument_of n (drafted draft.now t n) p }
{
    let k = text_drafts::block(t, p);
    let target = text_drafts::target(draft, k);
    if is_named(target) {
        return find(draft, t, n, target);
    }
    text_drafts::argument(draft, k)
}

// Whether the label of thread t's statement p is doubled: one before p has it.
fn is_doubled(draft: &[u8], t: u16, n: u16, p: u16) -> bool
    requires { p < n }
    ensures { result ≡ doubled_at (drafted draft.now t n) p }
{
    let label = text_drafts::label(draft, text_drafts::block(t, p));
    if is_named(label) {
        return find(draft, t, p, label) < p;
    }
    false
}

// Whether the target of thread t's statement p, if it jumps, is one of its statements.
fn target_fits(draft: &[u8], t: u16, n: u16, p: u16) -> bool
    requires { p < n }
    ensures { result ≡ target_fits n (drafted draft.now t n) p }
{
    let number = text_drafts::number(draft, text_drafts::block(t, p));
    if is_jump(number) {
        return argument(draft, t, n, p) < n;
    }
    true
}

// Whether thread t's labels are neither doubled nor unknown, and its targets not beyond it.
fn fits(draft: &[u8], t: u16, n: u16) -> bool
    ensures { result ≡ thread_fits n (drafted draft.now t n) }
{
    for p in 0..n {
        if is_doubled(draft, t, n, p) || !target_fits(draft, t, n, p) {
            return false;
        }
    }
    true
}

// Whether every thread that has ended keeps the rules of labels.
pub fn labels_fit(draft: &[u8], ended: u16, counts: [u16; Layout::THREADS]) -> bool
    ensures { result ≡ labels_fit (threads_in draft.now ended counts) }
{
    for t in 0..ended {
        if !fits(draft, t, text_drafts::count(counts, t)) {
            return false;
        }
    }
    true
}

// The record of thread t's statement p.
fn bytes_of(draft: &[u8], t: u16, n: u16, p: u16) -> [u8; Statement::SIZE]
    requires { (p < n) × (t < 256) }
    ensures { result ≡ statement_bytes t n (drafted draft.now t n) p }
{
    let k = text_drafts::block(t, p);
    let [low, high] = argument(draft, t, n, p).to_le_bytes();
    let [pc_low, pc_high] = p.to_le_bytes();
    [
        t as u8,
        text_drafts::number(draft, k),
        text_drafts::mode(draft, k),
        0,
        low,
        high,
        pc_low,
        pc_high,
    ]
}

// Writes thread t's records after the first k of a set.
fn write(draft: &[u8], t: u16, n: u16, set: &mut [u8], k: u16)
    requires { (t < most_threads) × (record_length * k + record_length * n ≤ length set.old) }
    ensures { (take (record_length * k + record_length * n) set.new ≡ take (record_length * k) set.old ++ joined n (statement_bytes t n (drafted draft.now t n)))
        × (length set.new ≡ length set.old) }
{
    let start = Statement::SIZE * usize::from(k);
    for p in 0..n {
        let at = start + Statement::SIZE * usize::from(p);
        base::place(set, at, &bytes_of(draft, t, n, p));
    }
}

// Writes the records of the threads that have ended, and gives their number.
fn write_threads(draft: &[u8], ended: u16, counts: [u16; Layout::THREADS], set: &mut [u8]) -> u16
    requires { (ended ≤ most_threads) × ((t : ℕ) → get_or counts t 0 ≤ most_statements) × (record_length * most_records ≤ length set.old) }
    ensures { (result ≡ statements (threads_in draft.now ended counts)) × (result ≤ most_records) × (take (record_length * result) set.new ≡ set_bytes (threads_in draft.now ended counts)) }
{
    let mut k: u16 = 0;
    for t in 0..ended {
        let n = text_drafts::count(counts, t);
        write(draft, t, n, set, k);
        k += n;
    }
    k
}

// Whether no thread has more than 32 statements.
fn counts_fit(counts: [u16; Layout::THREADS]) -> bool
    ensures { (result ≡ list_all (λ n. leb n most_statements) counts) × (length counts ≡ most_threads) }
{
    counts.iter().all(|n| *n <= Layout::STATEMENTS)
}

// Writes the records of the threads that have ended, where they fit, and gives their number.
pub fn assemble(draft: &[u8], ended: u16, counts: [u16; Layout::THREADS], set: &mut [u8]) -> u16
    ensures { (ended ≤ most_threads → ((t : ℕ) → get_or counts t 0 ≤ most_statements) → record_length * most_records ≤ length set.old →
        (result ≡ statements (threads_in draft.now ended counts)) × (result ≤ most_records) × (take (record_length * result) set.new ≡ set_bytes (threads_in draft.now ended counts)))
        × (length set.new ≡ length set.old) }
{
    if Reading::THREADS < ended || !counts_fit(counts) || set.len() < Layout::SET {
        return 0;
    }
    write_threads(draft, ended, counts, set)
}

// Whether the first n records of a set have at most 8 different checkpoints.
pub fn checkpoints_fit(set: &[u8], n: u16) -> bool
    ensures { record_length * n ≤ length set.now → result ≡ checkpoints_fit (take (record_length * n) set.now) }
{
    match set.get(..Statement::SIZE * usize::from(n)) {
        Some(records) => records::set::few_checkpoints(records),
        None => false,
    }
}
