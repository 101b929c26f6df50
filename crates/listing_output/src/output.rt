// Texts and numbers printed into a lent output, one after the other, as far as there is room.
ghost use Rattle.std.specs.Prelude.{◌≡◌};
ghost use Rattle.listing_output.specs.Listings.{digits as digits_of, places as places_of, decimal, item as item_of};
ghost use Rattle.listing_output.specs.Outputs.{Prints};

// Writes bytes at a place, as many as there is room for, and gives the place after them.
pub fn put(out: &mut [u8], at: usize, bytes: &[u8]) -> usize
    ensures { Prints at out.old bytes.now result out.new }
{
    let end = out.len();
    if end <= at {
        return end;
    }
    let room = end - at;
    let n = bytes.len();
    if room < n {
        base::place(out, at, &bytes[..room]);
        return end;
    }
    base::place(out, at, bytes);
    at + n
}

// How many digits a word has.
fn places(n: u16) -> usize
    ensures { result ≡ places_of n }
{
    if n < 10 {
        return 1;
    }
    if n < 100 {
        return 2;
    }
    if n < 1000 {
        return 3;
    }
    if n < 10000 {
        return 4;
    }
    5
}

// The five last digits of a word.
fn digits(n: u16) -> [u8; 5]
    ensures { result ≡ digits_of 5 n }
{
    [
        48 + (n / 10 / 10 / 10 / 10 % 10) as u8,
        48 + (n / 10 / 10 / 10 % 10) as u8,
        48 + (n / 10 / 10 % 10) as u8,
        48 + (n / 10 % 10) as u8,
        48 + (n % 10) as u8,
    ]
}

// Prints a word in decimal.
pub fn number(out: &mut [u8], at: usize, n: u16) -> usize
    ensures { Prints at out.old (decimal n) result out.new }
{
    let all = digits(n);
    let k = places(n);
    put(out, at, &all[5 - k..])
}

// Prints a word in decimal, and the space after it.
pub fn item(out: &mut [u8], at: usize, n: u16) -> usize
    ensures { Prints at out.old (item_of (decimal n)) result out.new }
{
    let next = number(out, at, n);
    put(out, next, b" ")
}
