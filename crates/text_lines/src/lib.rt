// The lines of a set text: where each ends, and what it holds.
#![tactic(auto)]

pub mod cells;
mod items;
pub mod statements;

ghost use Rattle.std.specs.Prelude.{◌≡◌};
ghost use Rattle.text_lines.specs.Characters.{is_in_line, run};
ghost use Rattle.text_lines.specs.Lines.{is_dot as is_dot_of};

// A statement as its line gives it; label and target are filled up with 0, and all 0 where there is none.
#[derive(Clone, Copy)]
pub struct Stated {
    pub label: [u8; Stated::LABEL],
    pub number: u8,
    pub mode: u8,
    pub argument: u16,
    pub target: [u8; Stated::LABEL],
}

impl Stated {
    // The most bytes of a label.
    pub const LABEL: usize = 16;
}

// How many bytes the line has that starts a text.
pub fn line_length(text: &[u8]) -> usize
    ensures { result ≡ run is_in_line text.now }
{
    items::before(b'\n', text)
}

// Whether a line holds only "." and blanks.
#[tactic(auto, unfolding(crate::specs::Lines::is_dot))]
pub fn is_dot(l: &[u8]) -> bool
    ensures { result ≡ is_dot_of l.now }
{
    items::ends_with(b'.', items::skip(l))
}
