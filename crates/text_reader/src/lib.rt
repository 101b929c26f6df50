// A reader of a text: it stands at a byte and gives the lines from there on, or where each ends.
#![tactic(auto)]

ghost use Rattle.std.specs.Prelude.{◌≡◌};
ghost use Rattle.text_reader.specs.Readers.{line_at, moved_on};

// Where a line ends, and where the next one starts.
#[derive(Clone, Copy, Debug, PartialEq, Eq)]
pub struct Line {
    pub end: usize,
    pub next: usize,
}

// A text, and the byte of it where the reader stands; past the text's end no line is left.
#[derive(Clone, Copy)]
pub struct Reader<'a> {
    pub text: &'a [u8],
    pub at: usize,
}

impl<'a> Reader<'a> {
    // A reader that stands at a byte of a text.
    pub fn new(text: &'a [u8], at: usize) -> Reader<'a>
        ensures { (result.text ≡ text.entry) × (result.at ≡ at) }
    {
        Reader { text, at }
    }

    // Gives where the line ends that starts where the reader stands, and moves the reader to the next line.
    // Past the text it gives where the reader stands, which stays there.
    pub fn next_line(&mut self) -> usize
        ensures { (result ≡ (line_at self.old.text.now self.old.at).end) × (self.new ≡ moved_on self.old) }
    {
        let start = self.at;
        match self.next() {
            Some(line) => start + line.len(),
            None => start,
        }
    }

    // Where the reader stands.
    pub fn position(self) -> usize
        ensures { result ≡ self.entry.at }
    {
        self.at
    }
}

impl<'a> Iterator for Reader<'a> {
    ghost use Rattle.std.specs.Iterator.{item_count};
    ghost use Rattle.text_reader.specs.Readers.{GivesLine, lines_left};

    type Item = &'a [u8];

    ghost next_gives = { GivesLine };

    ghost remaining = { item_count lines_left };

    // The line that starts where the reader stands, which moves on past its LF.
    fn next(&mut self) -> Option<&'a [u8]> {
        let rest = self.text.get(self.at..)?;
        let line = &rest[..text_lines::line_length(rest)];
        self.at += line.len() + 1;
        Some(line)
    }
}

// The line that a reader gives which stands at a byte of a text.
pub fn line_from(text: &[u8], at: usize) -> Line
    ensures { (result ≡ line_at text.now at) }
{
    let mut reader = Reader::new(text, at);
    let end = reader.next_line();
    Line {
        end,
        next: reader.position(),
    }
}
