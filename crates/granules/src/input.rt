// Requests from a reader, one a line.
ghost use Rattle.std.specs.Prelude.{◌≡◌, ◌<◌, [], length, IfOk, OnSome};
ghost use Rattle.granules.specs.Lines.{without_end, next_number, Reads};

use anyhow::bail;
use requests::{NotARequest, Request};
use std::alloc::Global;
use std::io::BufRead;
use std::str;

/// What a line of the input is.
#[derive(Clone, Copy, Debug, PartialEq, Eq)]
pub enum Line {
    Asks(Request),
    Empty,
    Bad,
}

/// A reader, the line that was read last, and its number from 1.
#[derive(Debug, Drop)]
pub struct Lines<R> {
    reader: R,
    line: Vec<u8>,
    number: u64,
}

// A line without its end.
fn without_end(line: &[u8]) -> &[u8]
    ensures { result.now ≡ without_end line.now }
{
    match line {
        [text @ .., b'\r', b'\n'] => text,
        [text @ .., b'\n'] => text,
        _ => line,
    }
}

impl<R: BufRead> Lines<R> {
    pub fn new(reader: R, alloc: Global) -> Lines<R>
        ensures line { result.line.items ≡ [] }
        ensures number { result.number ≡ 0 }
    {
        Lines {
            reader,
            line: Vec::new(alloc),
            number: 0,
        }
    }

    /// The number of the line that was read last.
    pub fn number(&self) -> u64
        ensures { result ≡ self.now.number }
    {
        self.number
    }

    /// What the next line is; none at the end of the input, or once no more lines can be counted.
    pub fn next(&mut self) -> anyhow::Result<Option<Line>>
        ensures reads { IfOk result (Reads self.new.line.items) }
        ensures number { self.new.number ≡ next_number self.old.number }
        ensures counted { IfOk result (λ o. OnSome o (self.old.number < self.new.number)) }
    {
        if self.advance()? == 0 {
            return Ok(None);
        }
        let Ok(text) = str::from_utf8(without_end(&self.line)) else {
            bail!("line {} is not text (UTF-8)", self.number);
        };
        if text.is_empty() {
            return Ok(Some(Line::Empty));
        }
        match text.parse() {
            Ok(request) => Ok(Some(Line::Asks(request))),
            Err(NotARequest) => Ok(Some(Line::Bad)),
        }
    }

    // Reads a line more, if it can be counted, and answers how many bytes it has; none at the end of the input.
    fn advance(&mut self) -> anyhow::Result<usize>
        ensures read { IfOk result (λ n. n ≡ length self.new.line.items) }
        ensures number { self.new.number ≡ next_number self.old.number }
        ensures counted { IfOk result (λ n. 0 < n → self.old.number < self.new.number) }
    {
        self.line.clear();
        let Some(number) = self.number.checked_add(1) else {
            return Ok(0);
        };
        self.number = number;
        let read = self.reader.read_until(b'\n', &mut self.line)?;
        Ok(read)
    }
}
