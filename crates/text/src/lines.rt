// F24: the lines of a script.
ghost use Rattle.std.specs.Prelude.{◌≡◌};
ghost use Rattle.text.specs.Lines.{line_end, line_at};

// A line: where it starts, where it ends, and where the next one starts.
#[derive(Clone, Copy)]
pub struct Line {
    pub start: usize,
    pub end: usize,
    pub next: usize,
}

// Where the line that starts at a place ends: at its LF, or at the script's end; past that end, where it starts.
fn line_end(script: &[u8], at: usize) -> usize
    ensures { result ≡ line_end script.now at }
{
    if script.len() < at {
        return at;
    }
    let rest = &script[at..];
    let length = rest.iter().position(|c| *c == b'\n');
    at + length.unwrap_or(rest.len())
}

// The line that starts at a place. The next one starts after its LF.
pub fn line_at(script: &[u8], at: usize) -> Line
    ensures { result ≡ line_at script.now at }
{
    let end = line_end(script, at);
    let next = if end < script.len() { end + 1 } else { end };
    Line {
        start: at,
        end,
        next,
    }
}
