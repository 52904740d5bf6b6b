// The fields of a line, parted by commas. Nothing is refused.
ghost use Rattle.std.specs.Prelude.{◌≡◌};
ghost use Rattle.std.specs.Iterator.{YieldsFirstRef, item_count};
ghost use Rattle.replay_text.specs.Lines.{fields_of};
ghost use Rattle.replay_text.specs.Lines.Left.{fields_left};

use crate::reader::{COMMA, find};

// The part of a line whose fields are still to come; none behind the last one.
#[derive(Drop)]
pub struct Fields<'a> {
    pub(crate) rest: Option<&'a [u8]>,
}

impl<'a> Iterator for Fields<'a> {
    type Item = &'a [u8];

    ghost next_gives = { YieldsFirstRef fields_left };

    ghost remaining = { item_count fields_left };

    fn next(&mut self) -> Option<&'a [u8]> {
        let rest = self.rest?;
        let end = find(rest, COMMA, 0);
        if end < rest.len() {
            self.rest = Some(&rest[end + 1..]);
            return Some(&rest[..end]);
        }
        self.rest = None;
        Some(rest)
    }
}

impl<'a> Fields<'a> {
    pub fn of(line: &'a [u8]) -> Fields<'a>
        ensures { fields_left result ≡ fields_of line.entry.now }
    {
        Fields { rest: Some(line) }
    }
}
