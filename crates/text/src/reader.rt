// The reader of a script.
ghost use Rattle.std.specs.Prelude.{◌≡◌};
ghost use Rattle.text.specs.Lines.{line_at};
ghost use Rattle.text.specs.Reader.{next_line, Steps};

use super::lines::{Line, line_at};

// P1: a script, and where its next line starts.
#[derive(Clone, Copy)]
pub struct Reader<'a> {
    pub script: &'a [u8],
    pub next: usize,
}

impl<'a> Reader<'a> {
    // The next line, without its LF, and the reader goes on to the one after it; none at the script's end.
    pub fn step(&mut self) -> Option<&'a [u8]>
        ensures { Steps self.old result self.new }
    {
        if self.script.len() <= self.next {
            return None;
        }
        let line = line_at(self.script, self.next);
        self.next = line.next;
        Some(&self.script[line.start..line.end])
    }
}

// The line at a reader's place, which says where the one after it starts.
pub fn step<'a>(reader: Reader<'a>) -> Line
    ensures { result ≡ next_line reader.entry }
{
    line_at(reader.script, reader.next)
}

// The line at a place of a script: for callers that hold no reader.
pub fn read_line(script: &[u8], at: usize) -> Line
    ensures { result ≡ line_at script.now at }
{
    line_at(script, at)
}
