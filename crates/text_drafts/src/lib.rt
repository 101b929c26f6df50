// What is kept of a text while it is read. Statements stand in blocks of 36 bytes: thread t's statement p in block 32 * t + p.
#![tactic(auto)]

pub mod keys;

ghost use Rattle.std.specs.Prelude.{◌≡◌, ◌+◌, ◌*◌, length, drop, take, get_or};
ghost use Rattle.base.specs.Bytes.{same, word_at};
ghost use Rattle.text_drafts.specs.Blocks.{block_length, stored};
ghost use Rattle.records.specs.Sets.{most_statements};
ghost use Rattle.text_lines.specs.Lines.{longest_label};

use records::Layout;
use text_lines::Stated;

// Bytes of a block, and where its parts stand; its instruction number comes first.
pub const BLOCK: usize = 36;

const MODE: usize = 1;

const ARGUMENT: usize = 2;

const LABEL: usize = 4;

const TARGET: usize = 20;

// Bytes of a draft: a block for each statement of a set.
pub const DRAFT: usize = BLOCK * Layout::RECORDS;

// The part of s from index i on, n bytes or as many as there are.
fn part(s: &[u8], i: usize, n: usize) -> &[u8]
    ensures { result.now ≡ take n (drop i s.now) }
{
    let start = i.min(s.len());
    let end = start + n.min(s.len() - start);
    &s[start..end]
}

// How many statements thread t has.
pub fn count(counts: [u16; Layout::THREADS], t: u16) -> u16
    ensures { result ≡ get_or counts t 0 }
{
    counts.get(usize::from(t)).copied().unwrap_or(0)
}

// The block of thread t's statement p.
pub fn block(t: u16, p: u16) -> u32
    ensures { result ≡ most_statements * t + p }
{
    u32::from(Layout::STATEMENTS) * u32::from(t) + u32::from(p)
}

// The label of block k.
pub fn label(draft: &[u8], k: u32) -> &[u8]
    ensures { result.now ≡ take longest_label (drop (block_length * k + 4) draft.now) }
{
    part(draft, BLOCK * (k as usize) + LABEL, Stated::LABEL)
}

// The target of block k.
pub fn target(draft: &[u8], k: u32) -> &[u8]
    ensures { result.now ≡ take longest_label (drop (block_length * k + 20) draft.now) }
{
    part(draft, BLOCK * (k as usize) + TARGET, Stated::LABEL)
}

// The instruction number of block k.
pub fn number(draft: &[u8], k: u32) -> u8
    ensures { result ≡ get_or draft.now (block_length * k) 0 }
{
    base::byte_at(draft, BLOCK * (k as usize))
}

// The mode of block k.
pub fn mode(draft: &[u8], k: u32) -> u8
    ensures { result ≡ get_or draft.now (block_length * k + 1) 0 }
{
    base::byte_at(draft, BLOCK * (k as usize) + MODE)
}

// The argument of block k.
pub fn argument(draft: &[u8], k: u32) -> u16
    ensures { result ≡ word_at draft.now (block_length * k + 2) }
{
    base::word_at(draft, BLOCK * (k as usize) + ARGUMENT)
}

// Puts a statement into block k, if there is room.
#[tactic(auto, unfolding(crate::specs::Blocks::stored))]
pub fn put(draft: &mut [u8], k: u32, x: Stated)
    ensures { (draft.new ≡ stored draft.old k x) × (length x.label ≡ longest_label) × (length x.target ≡ longest_label) }
{
    let at = BLOCK * (k as usize);
    let label = x.label;
    let target = x.target;
    let [low, high] = x.argument.to_le_bytes();
    base::place(draft, at, &[x.number, x.mode, low, high]);
    base::place(draft, at + LABEL, &label);
    base::place(draft, at + TARGET, &target);
}

// Whether two labels of sixteen bytes are the same. Sixteen tests without a branch are one comparison of the machine; with the fold of
// `base::same` in their place, reading a text of long labels takes a fifth more instructions.
fn sixteen(a: &[u8], b: &[u8]) -> bool
    requires { (length a.now ≡ longest_label) × (length b.now ≡ longest_label) }
    ensures { result ≡ same a.now b.now }
{
    (a[0] == b[0])
        & (a[1] == b[1])
        & (a[2] == b[2])
        & (a[3] == b[3])
        & (a[4] == b[4])
        & (a[5] == b[5])
        & (a[6] == b[6])
        & (a[7] == b[7])
        & (a[8] == b[8])
        & (a[9] == b[9])
        & (a[10] == b[10])
        & (a[11] == b[11])
        & (a[12] == b[12])
        & (a[13] == b[13])
        & (a[14] == b[14])
        & (a[15] == b[15])
}

// Whether two labels are the same.
pub fn same_label(a: &[u8], b: &[u8]) -> bool
    ensures { result ≡ same a.now b.now }
{
    if a.len() == Stated::LABEL && b.len() == Stated::LABEL {
        return sixteen(a, b);
    }
    base::same(a, b)
}
