// A reader over the lent text that remembers its place, and gives the line that begins there. Nothing is refused.
ghost use Rattle.std.specs.Prelude.{◌≡◌, ◌==◌, ◌≤◌, max, length, position};
ghost use Rattle.std.specs.Iterator.{YieldsFirstRef, item_count};
ghost use Rattle.replay_text.specs.Lines.{lines_of, find_of, end_of, line_at_of};
ghost use Rattle.replay_text.specs.Lines.Left.{lines_left};

pub const LF: u8 = b'\n';

pub const COMMA: u8 = b',';

const CR: u8 = b'\r';

// Where a line stands without its end, and where the next one begins.
#[derive(Clone, Copy)]
pub struct LinePart {
    pub start: usize,
    pub end: usize,
    pub next: usize,
}

// The first place of a byte, if it stands in the part at all. On its own, so that `find` has the answer in the library's word for it.
fn place_in(part: &[u8], byte: u8) -> Option<usize>
    ensures { result ≡ position (λ b. b == byte) part.now }
{
    part.iter().position(|b| *b == byte)
}

// The first place of a byte from a place on, or the text's end.
pub fn find(text: &[u8], byte: u8, at: usize) -> usize
    ensures value { result ≡ find_of text.now byte at }
    ensures upper_bound { result ≤ max at (length text.now) }
{
    if text.len() <= at {
        return at;
    }
    match place_in(&text[at..], byte) {
        Some(place) => at + place,
        None => text.len(),
    }
}

// The end of a line without the CR that stands directly before its LF.
fn end_before(text: &[u8], at: usize, stop: usize) -> usize
    requires { stop ≤ length text.now }
    ensures { result ≡ end_of text.now at stop }
{
    if at < stop && text[stop - 1] == CR {
        return stop - 1;
    }
    stop
}

// The line that begins at a place.
pub fn next_line(text: &[u8], at: usize) -> Option<LinePart>
    ensures { result ≡ line_at_of text.now at }
{
    if text.len() <= at {
        return None;
    }
    let stop = find(text, LF, at);
    if text.len() <= stop {
        return Some(LinePart {
            start: at,
            end: stop,
            next: stop,
        });
    }
    Some(LinePart {
        start: at,
        end: end_before(text, at, stop),
        next: stop + 1,
    })
}

// The lines of a text, each without its end.
#[derive(Clone, Copy)]
pub struct Lines<'a> {
    pub(crate) text: &'a [u8],
    pub(crate) at: usize,
}

impl<'a> Iterator for Lines<'a> {
    type Item = &'a [u8];

    ghost next_gives = { YieldsFirstRef lines_left };

    ghost remaining = { item_count lines_left };

    fn next(&mut self) -> Option<&'a [u8]> {
        let line = next_line(self.text, self.at)?;
        self.at = line.next;
        Some(&self.text[line.start..line.end])
    }
}

impl<'a> Lines<'a> {
    pub fn of(text: &'a [u8]) -> Lines<'a>
        ensures { lines_left result ≡ lines_of text.entry.now }
    {
        Lines { text, at: 0 }
    }
}
