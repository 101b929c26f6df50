// Which sets of statement records are accepted (refusal 9), and the layout of those that are.
ghost use Rattle.std.specs.Prelude.{◌≡◌, ◌&&◌, ◌≤◌, ◌<◌, leb};
ghost use Rattle.base.specs.Below.{every, some, number};
ghost use Rattle.records.specs.Sets.{records, thread_at, count_of, follows, argument_fits, record_fits, checks_at, opens_at, set_accepted, counts_of, layout_of, most_checkpoints, most_records};

use crate::instructions::{is_bare, is_jump, is_last, is_memory};
use crate::{Instruction, Layout, Statement, word};

// Whether record k follows record k - 1: threads, and pcs in each, count up from 0 without gaps,
// and the thread before ends in EXIT, JMP or HALT.
fn follows(set: &[u8], k: usize) -> bool
    requires { k < records set.now }
    ensures { result ≡ follows set.now k }
{
    let at = Statement::SIZE * k;
    let thread = set[at];
    let pc = word(set, at + 6);
    if k == 0 {
        return (thread == 0) & (pc == 0);
    }
    let last = Statement::SIZE * (k - 1);
    let before = set[last];
    if thread == before {
        // Wider than a word, so that the sum does not wrap.
        return (pc as u32) == (word(set, last + 6) as u32) + 1;
    }
    ((thread as u16) == (before as u16) + 1) & (pc == 0) & is_last(set[last + 1])
}

// Whether record k has the argument that its instruction takes, in a thread of `count` statements.
fn argument_fits(set: &[u8], k: usize, count: u16) -> bool
    requires { (k < records set.now) × (count ≡ count_of set.now (thread_at set.now k)) }
    ensures { result ≡ argument_fits set.now k }
{
    let at = Statement::SIZE * k;
    let number = set[at + 1];
    let argument = word(set, at + 4);
    if is_bare(number) {
        return argument == 0;
    }
    if is_jump(number) {
        if count <= argument {
            return false;
        }
    }
    true
}

// Whether record k's fields are in their ranges, given how many statements each thread has.
fn record_fits(set: &[u8], k: usize, counts: [u16; Layout::THREADS]) -> bool
    requires { (k < records set.now) × (counts ≡ counts_of set.now) }
    ensures { result ≡ record_fits set.now k }
{
    let at = Statement::SIZE * k;
    let thread = set[at] as usize;
    if Layout::THREADS <= thread {
        return false;
    }
    if Layout::STATEMENTS <= word(set, at + 6) {
        return false;
    }
    let number = set[at + 1];
    let most = is_memory(number) as u8;
    (number < Statement::INSTRUCTIONS)
        & (set[at + 2] <= most)
        & (set[at + 3] == 0)
        & argument_fits(set, k, counts[thread])
}

// Whether every record follows the one before it and fits.
fn records_fit(set: &[u8], counts: [u16; Layout::THREADS]) -> bool
    requires { counts ≡ counts_of set.now }
    ensures { result ≡ every (records set.now) (λ k. follows set.now k && record_fits set.now k) }
{
    for k in 0..set.len() / Statement::SIZE {
        if !(follows(set, k) & record_fits(set, k, counts)) {
            return false;
        }
    }
    true
}

// Whether record k is a CHECK of checkpoint c.
fn checks(set: &[u8], c: u16, k: usize) -> bool
    requires { k < records set.now }
    ensures { result ≡ checks_at set.now c k }
{
    let at = Statement::SIZE * k;
    (set[at + 1] == Instruction::Check as u8) & (word(set, at + 4) == c)
}

// Whether a record before k is a CHECK of checkpoint c.
fn checked_before(set: &[u8], c: u16, k: usize) -> bool
    requires { k < records set.now }
    ensures { result ≡ some k (checks_at set.now c) }
{
    for j in 0..k {
        if checks(set, c, j) {
            return true;
        }
    }
    false
}

// Whether record k is the first CHECK of its checkpoint.
fn opens(set: &[u8], k: usize) -> bool
    requires { k < records set.now }
    ensures { result ≡ opens_at set.now k }
{
    let at = Statement::SIZE * k;
    if set[at + 1] != Instruction::Check as u8 {
        return false;
    }
    !checked_before(set, word(set, at + 4), k)
}

// Whether there are at most 8 different checkpoints; it stops at a ninth.
pub fn few_checkpoints(set: &[u8]) -> bool
    ensures { result ≡ leb (number (records set.now) (opens_at set.now)) most_checkpoints }
{
    let mut found: u8 = 0;
    for k in 0..set.len() / Statement::SIZE {
        if opens(set, k) {
            if found == Layout::CHECKPOINTS {
                return false;
            }
            found += 1;
        }
    }
    true
}

// How many statements each thread has. Four counters keep the loop free of stores.
fn counts_of(set: &[u8]) -> [u16; Layout::THREADS]
    requires { records set.now ≤ most_records }
    ensures { result ≡ counts_of set.now }
{
    let mut first: u16 = 0;
    let mut second: u16 = 0;
    let mut third: u16 = 0;
    let mut fourth: u16 = 0;
    for k in 0..set.len() / Statement::SIZE {
        let thread = set[Statement::SIZE * k];
        first += (thread == 0) as u16;
        second += (thread == 1) as u16;
        third += (thread == 2) as u16;
        fourth += (thread == 3) as u16;
    }
    [first, second, third, fourth]
}

// Whether a set is accepted, given how many statements each thread has.
fn accepted(set: &[u8], counts: [u16; Layout::THREADS]) -> bool
    requires { counts ≡ counts_of set.now }
    ensures { result ≡ set_accepted set.now }
{
    let n = set.len() / Statement::SIZE;
    if set.len() % Statement::SIZE != 0 {
        return false;
    }
    if n == 0 {
        return false;
    }
    if !records_fit(set, counts) {
        return false;
    }
    if !is_last(set[Statement::SIZE * (n - 1) + 1]) {
        return false;
    }
    few_checkpoints(set)
}

// The layout of a set; no threads where the set is refused.
pub fn layout(set: &[u8]) -> Layout
    ensures { result ≡ layout_of set.now }
{
    let n = set.len() / Statement::SIZE;
    // A set of more records is refused before any of them is read.
    if n <= Layout::RECORDS {
        let counts = counts_of(set);
        if accepted(set, counts) {
            let second = counts[0];
            let third = second + counts[1];
            let fourth = third + counts[2];
            return Layout {
                threads: set[Statement::SIZE * (n - 1)] + 1,
                starts: [0, second, third, fourth],
                counts,
            };
        }
    }
    Layout {
        threads: 0,
        starts: [0; Layout::THREADS],
        counts: [0; Layout::THREADS],
    }
}
