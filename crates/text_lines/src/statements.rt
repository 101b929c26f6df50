// What a thread's line holds: an optional label and ":", a word, and its argument.
ghost use Rattle.std.specs.Prelude.{◌≡◌, cond, Ok, Err};
ghost use Rattle.records.specs.Numbers.{number as number_of};
ghost use Rattle.records.specs.declared.refusals.Refusal.TheVariants.{Malformed};
ghost use Rattle.text_lines.specs.Lines.{padded, is_label, stated as stated_of, numbered as numbered_of, bracketed as bracketed_of, targeted as targeted_of, argued as argued_of, after_word, worded as worded_of, labelled as labelled_of, statement as statement_of, statement_line};

use crate::{Stated, items};
use records::instructions::{is_bare, is_jump, is_memory};
use records::{Instruction, Refusal};

// A name as a label, filled up with 0.
#[tactic(auto, unfolding(crate::specs::Lines::is_label, crate::specs::Lines::padded, base::specs::Bytes::over))]
fn label(name: &[u8]) -> Result<[u8; Stated::LABEL], Refusal>
    ensures { result ≡ cond (is_label name.now) (Ok (padded name.now)) (Err Malformed) }
{
    if name.is_empty() || Stated::LABEL < name.len() || name[0].is_ascii_digit() {
        return Err(Refusal::Malformed);
    }
    let mut bytes = [0u8; Stated::LABEL];
    bytes[..name.len()].copy_from_slice(name);
    Ok(bytes)
}

// A statement whose argument, if it has one, is a number.
#[tactic(auto, unfolding(crate::specs::Lines::stated))]
fn stated(
    label: [u8; Stated::LABEL],
    number: u8,
    mode: u8,
    argument: u32,
) -> Result<Stated, Refusal>
    ensures { result ≡ stated_of label number mode argument }
{
    let argument = u16::try_from(argument).map_err(|_| Refusal::Number)?;
    Ok(Stated {
        label,
        number,
        mode,
        argument,
        target: [0; Stated::LABEL],
    })
}

// Number, and nothing after it.
#[tactic(auto, unfolding(crate::specs::Lines::numbered))]
fn numbered(label: [u8; Stated::LABEL], number: u8, s: &[u8]) -> Result<Stated, Refusal>
    ensures { result ≡ numbered_of label number s.now }
{
    stated(label, number, 0, items::last_number(s)?)
}

// Number and "]", and nothing after it.
#[tactic(auto, unfolding(crate::specs::Lines::bracketed))]
fn bracketed(label: [u8; Stated::LABEL], number: u8, s: &[u8]) -> Result<Stated, Refusal>
    ensures { result ≡ bracketed_of label number s.now }
{
    let (argument, rest) = items::number(s)?;
    if !items::ends_with(b']', items::skip(rest)) {
        return Err(Refusal::Malformed);
    }
    stated(label, number, 1, argument)
}

// Label, and nothing after it.
#[tactic(auto, unfolding(crate::specs::Lines::targeted))]
fn targeted(own: [u8; Stated::LABEL], number: u8, s: &[u8]) -> Result<Stated, Refusal>
    ensures { result ≡ targeted_of own number s.now }
{
    let (name, rest) = items::name(s);
    let target = label(name)?;
    if !items::only_blanks(rest) {
        return Err(Refusal::Malformed);
    }
    Ok(Stated {
        label: own,
        number,
        mode: 0,
        argument: 0,
        target,
    })
}

// The argument, by the class of the word.
#[tactic(auto, unfolding(crate::specs::Lines::argued))]
fn argued(label: [u8; Stated::LABEL], number: u8, s: &[u8]) -> Result<Stated, Refusal>
    ensures { result ≡ argued_of label number s.now }
{
    let first = base::byte_at(s, 0);
    if is_memory(number) && first == b'[' {
        return bracketed(label, number, items::skip(&s[1..]));
    }
    if is_jump(number) && !first.is_ascii_digit() {
        return targeted(label, number, s);
    }
    numbered(label, number, s)
}

// What follows the word.
#[tactic(auto, unfolding(crate::specs::Lines::after_word), using(crate::proofs::Words::known))]
fn after_word(
    label: [u8; Stated::LABEL],
    instruction: Instruction,
    s: &[u8],
) -> Result<Stated, Refusal>
    ensures { result ≡ after_word label (number_of instruction) s.now }
{
    let number = instruction.number();
    if is_bare(number) {
        if !items::only_blanks(s) {
            return Err(Refusal::Malformed);
        }
        return stated(label, number, 0, 0);
    }
    if !items::is_blank(base::byte_at(s, 0)) {
        return Err(Refusal::Malformed);
    }
    argued(label, number, items::skip(s))
}

// The word and what follows it.
#[tactic(auto, unfolding(crate::specs::Lines::worded, crate::specs::Lines::after_word))]
fn worded(label: [u8; Stated::LABEL], s: &[u8]) -> Result<Stated, Refusal>
    ensures { result ≡ worded_of label s.now }
{
    let (word, rest) = items::name(s);
    let instruction = Instruction::named(word).ok_or(Refusal::Malformed)?;
    after_word(label, instruction, rest)
}

// An optional label and ":", and what follows it.
#[tactic(auto, unfolding(crate::specs::Lines::labelled))]
fn labelled(s: &[u8]) -> Result<Stated, Refusal>
    ensures { result ≡ labelled_of s.now }
{
    let (name, rest) = items::name(s);
    match items::skip(rest) {
        [b':', rest @ ..] => worded(label(name)?, items::skip(rest)),
        _ => worded([0; Stated::LABEL], s),
    }
}

// A line without its comment.
#[tactic(auto, unfolding(crate::specs::Lines::statement))]
fn statement(s: &[u8]) -> Result<Option<Stated>, Refusal>
    ensures { result ≡ statement_of s.now }
{
    if items::only_blanks(s) {
        return Ok(None);
    }
    labelled(items::skip(s)).map(Some)
}

// What a thread's line holds; an empty one holds nothing.
#[tactic(auto, unfolding(crate::specs::Lines::statement_line))]
pub fn statement_line(l: &[u8]) -> Result<Option<Stated>, Refusal>
    ensures { result ≡ statement_line l.now }
{
    if !items::is_allowed(l) {
        return Err(Refusal::Malformed);
    }
    statement(items::uncommented(l))
}
