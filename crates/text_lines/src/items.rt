// The items of a line, at the start of a slice: blanks, names, numbers, signs.
ghost use Rattle.std.specs.Prelude.{◌≡◌, ◌<◌, ◌≤◌, cond, not, ◌&&◌, min, eqb, ltb, length, Ok, Err, MatchResult};
ghost use Rattle.records.specs.declared.refusals.Refusal.TheVariants.{Malformed};
ghost use Rattle.text_lines.specs.Characters.{allowed_byte, is_blank, is_name_byte, blanks, name_bytes, digits, past_digits, name, past_name, skip as skip_of, only_blanks, ends_with, value as value_of, run};
ghost use Rattle.text_lines.specs.Lines.{is_allowed, uncommented as uncommented_of};

use records::Refusal;

pub fn is_blank(b: u8) -> bool
    ensures { result ≡ is_blank b }
{
    b == b' ' || b == b'\t'
}

fn is_name_byte(b: u8) -> bool
    ensures { result ≡ is_name_byte b }
{
    b.is_ascii_alphanumeric() || b == b'_'
}

fn is_allowed_byte(b: u8) -> bool
    ensures { result ≡ allowed_byte b }
{
    b == b'\t' || b == b'\n' || (b' ' <= b && b <= b'~')
}

// How many blanks s starts with.
fn blanks(s: &[u8]) -> usize
    ensures number { result ≡ blanks s.now }
    ensures within { result ≤ length s.now }
{
    s.iter().take_while(|b| is_blank(**b)).count()
}

// How many bytes of a name s starts with.
fn name_bytes(s: &[u8]) -> usize
    ensures number { result ≡ name_bytes s.now }
    ensures within { result ≤ length s.now }
{
    s.iter().take_while(|b| is_name_byte(**b)).count()
}

// How many digits s starts with.
fn digits(s: &[u8]) -> usize
    ensures number { result ≡ digits s.now }
    ensures within { result ≤ length s.now }
{
    s.iter().take_while(|b| b.is_ascii_digit()).count()
}

// How many bytes other than b s starts with, one by one.
fn others(b: u8, s: &[u8]) -> usize
    ensures number { result ≡ run (λ x. not (eqb x b)) s.now }
    ensures within { result ≤ length s.now }
{
    s.iter().take_while(|x| **x != b).count()
}

// Whether none of eight bytes is b. All are tested, which is one comparison of the machine.
fn are_others(b: u8, eight: &[u8; 8]) -> bool
    ensures { result ≡ eqb (run (λ x. not (eqb x b)) eight.now) (length eight.now) }
{
    eight.iter().fold(true, |all, x| all & (*x != b))
}

// How many bytes of s stand before the first b; all where it has none. It goes by eights as far as none of them is b.
pub fn before(b: u8, s: &[u8]) -> usize
    ensures number { result ≡ run (λ x. not (eqb x b)) s.now }
    ensures within { result ≤ length s.now }
{
    let mut rest = s;
    while let Some((eight, after)) = rest.split_first_chunk::<8>() {
        if !are_others(b, eight) {
            break;
        }
        rest = after;
    }
    s.len() - rest.len() + others(b, rest)
}

// s past the blanks at its start.
pub fn skip(s: &[u8]) -> &[u8]
    ensures { result.now ≡ skip_of s.now }
{
    s.split_at(blanks(s)).1
}

// Whether s holds only blanks.
pub fn only_blanks(s: &[u8]) -> bool
    ensures { result ≡ only_blanks s.now }
{
    blanks(s) == s.len()
}

// Whether s is byte b and nothing after it but blanks.
pub fn ends_with(b: u8, s: &[u8]) -> bool
    ensures { result ≡ ends_with b s.now }
{
    base::byte_at(s, 0) == b && only_blanks(s.get(1..).unwrap_or(&[]))
}

// The name that s starts with, and s past it.
pub fn name(s: &[u8]) -> (&[u8], &[u8])
    ensures name { result.0.now ≡ name s.now }
    ensures rest { result.1.now ≡ past_name s.now }
{
    s.split_at(name_bytes(s))
}

// The value of digits; 65,536 stands for every number above 65,535.
fn value(s: &[u8]) -> u32
    ensures { result ≡ min (value_of s.now) 65536 }
{
    let mut v: u32 = 0;
    for &b in s {
        if !b.is_ascii_digit() {
            return v;
        }
        v = (v * 10 + u32::from(b - b'0')).min(65536);
    }
    v
}

// The value of the digits that s starts with, and s past them; 65,536 stands for every number above 65,535.
pub fn number(s: &[u8]) -> Result<(u32, &[u8]), Refusal>
    ensures { MatchResult result (λ r. (0 < digits s.now) × (r.0 ≡ min (value_of s.now) 65536) × (r.1.now ≡ past_digits s.now)) (λ e. (digits s.now ≡ 0) × (e ≡ Malformed)) }
{
    let n = digits(s);
    if n == 0 {
        return Err(Refusal::Malformed);
    }
    Ok((value(s), s.split_at(n).1))
}

// The value of a number with nothing after it but blanks; 65,536 stands for every number above 65,535.
pub fn last_number(s: &[u8]) -> Result<u32, Refusal>
    ensures { result ≡ cond (ltb 0 (digits s.now) && only_blanks (past_digits s.now)) (Ok (min (value_of s.now) 65536)) (Err Malformed) }
{
    let (value, rest) = number(s)?;
    if !only_blanks(rest) {
        return Err(Refusal::Malformed);
    }
    Ok(value)
}

// Whether no byte of a line is forbidden. All are tested, several at once, which is faster than to leave at the first that is.
pub fn is_allowed(l: &[u8]) -> bool
    ensures { result ≡ is_allowed l.now }
{
    l.iter().fold(true, |all, b| all & is_allowed_byte(*b))
}

// A line up to its comment.
pub fn uncommented(l: &[u8]) -> &[u8]
    ensures { result.now ≡ uncommented_of l.now }
{
    &l[..before(b'#', l)]
}
