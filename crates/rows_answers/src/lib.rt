// What is written: bytes into a room, which goes to standard output when it is full, but for its last byte.
#![tactic(auto)]

ghost use Rattle.std.specs.Prelude.{◌≡◌, OnOk};

use rows_words::shape::{Fault, Kind, Shape};
use rows_words::words;
use rows_words::words::WORDS;
use std::io::Result;

const ROOM: usize = 65536;

// What waits to be written: the bytes before an end.
#[derive(Drop)]
pub struct Output {
    bytes: [u8; ROOM],
    end: usize,
}

impl Output {
    pub fn new() -> Output {
        Output {
            bytes: [0; ROOM],
            end: 0,
        }
    }

    // Writes what waits.
    pub fn flush(&mut self, rt: &impl Print) -> Result<()>
        ensures { OnOk result (self.new.end ≡ 0) }
    {
        rt.write_all(words::cut(&self.bytes, 0, self.end))?;
        self.end = 0;
        Ok(())
    }

    fn byte(&mut self, rt: &impl Print, b: u8) -> Result<()> {
        if ROOM <= self.end {
            rt.write_all(words::cut(&self.bytes, 0, ROOM - 1))?;
            self.bytes[0] = self.bytes[ROOM - 1];
            self.end = 1;
        }
        self.bytes[self.end] = b;
        self.end += 1;
        Ok(())
    }

    fn text(&mut self, rt: &impl Print, s: &[u8]) -> Result<()> {
        for b in s {
            self.byte(rt, *b)?;
        }
        Ok(())
    }

    fn number(&mut self, rt: &impl Print, n: u64) -> Result<()> {
        let mut digits = [0u8; 20];
        let count = io::decimal(n, &mut digits);
        self.text(rt, &digits[..count])
    }

    fn list(&mut self, rt: &impl Print, list: &[u64]) -> Result<()> {
        self.byte(rt, b'[')?;
        for (i, n) in list.iter().enumerate() {
            if 0 < i {
                self.byte(rt, b' ')?;
            }
            self.number(rt, *n)?;
        }
        self.byte(rt, b']')
    }

    // A line of the words of a shape, as rows_questions reads them.
    fn parts(&mut self, rt: &impl Print, shape: Shape, words: &[u64; WORDS]) -> Result<()> {
        let mut place = 0;
        for behind in (0..shape.parts()).rev() {
            let kind = shape.kind_before(behind);
            match kind {
                Kind::Number => self.number(rt, words::word(words, place))?,
                Kind::List => self.list(rt, words::part(words, place))?,
            }
            self.byte(rt, if behind == 0 { b'\n' } else { b' ' })?;
            place = words::behind(words, place, kind);
        }
        Ok(())
    }

    fn fault(&mut self, rt: &impl Print, fault: Fault) -> Result<()> {
        match fault {
            Fault::Empty => self.text(rt, b"? empty\n"),
            Fault::Arguments => self.text(rt, b"? arguments\n"),
            Fault::Name => self.text(rt, b"? name\n"),
            Fault::Long => self.text(rt, b"? long\n"),
            Fault::Number => self.text(rt, b"? number\n"),
        }
    }

    // The line that answers a question: the words of a shape, or why there are none.
    pub fn line(
        &mut self,
        rt: &impl Print,
        told: std::result::Result<Shape, Fault>,
        words: &[u64; WORDS],
    ) -> Result<()> {
        match told {
            Ok(shape) => self.parts(rt, shape, words),
            Err(fault) => self.fault(rt, fault),
        }
    }
}
