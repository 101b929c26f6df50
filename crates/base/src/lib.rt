// Words of 16 bits, little-endian fields of byte slices, and bytes written at a place.
// Every function has an answer for every input, so that callers need no proof of an index.
#![tactic(auto)]

ghost use Rattle.std.specs.Prelude.{◌≡◌, slice_index};
ghost use Rattle.base.specs.Words.{plus, minus, times};
ghost use Rattle.base.specs.Bytes.{word_at, placed, same as same_of};

// a plus b, the low 16 bits.
pub fn sum(a: u16, b: u16) -> u16
    ensures { result ≡ plus a b }
{
    a.wrapping_add(b)
}

// a minus b, the low 16 bits.
pub fn difference(a: u16, b: u16) -> u16
    ensures { result ≡ minus a b }
{
    a.wrapping_sub(b)
}

// a times b, the low 16 bits.
pub fn product(a: u16, b: u16) -> u16
    ensures { result ≡ times a b }
{
    a.wrapping_mul(b)
}

// The byte at index i, 0 past the end.
pub fn byte_at(s: &[u8], i: usize) -> u8
    ensures { result ≡ slice_index s.now i }
{
    s.get(i).copied().unwrap_or(0)
}

// The word whose two bytes stand from index i on, low byte first; a byte past the end is 0.
pub fn word_at(s: &[u8], i: usize) -> u16
    ensures { result ≡ word_at s.now i }
{
    let rest = s.get(i..).unwrap_or(b"");
    u16::from_le_bytes([byte_at(rest, 0), byte_at(rest, 1)])
}

// Writes bytes from index i on, if they fit there.
pub fn place(out: &mut [u8], i: usize, bytes: &[u8])
    ensures { out.new ≡ placed out.old i bytes.now }
{
    if i <= out.len() && bytes.len() <= out.len() - i {
        out[i..i + bytes.len()].copy_from_slice(bytes);
    }
}

// Whether two slices hold the same bytes.
// All are compared; `==` leaves at the first that differs, and took a quarter of a replay's time (24 bytes a step).
pub fn same(a: &[u8], b: &[u8]) -> bool
    ensures { result ≡ same_of a.now b.now }
{
    a.len() == b.len() && a.iter().zip(b).fold(true, |all, (x, y)| all & (x == y))
}
