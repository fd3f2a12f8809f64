// Answers the requests of an input, from its mask to its end.
ghost use Rattle.std.specs.Prelude.{◌≡◌, ◌<◌, [], IfSome, IfOk, OnSome};
ghost use Rattle.backing.specs.Limits.{limit_of};
ghost use Rattle.granules.specs.Lines.{line_of, lines_left, Spells};

use crate::input::{Line, Lines};
use backing::{Backing, Limiter, MOST_GRANULES, Mask, Refused};
use requests::{Answer, Request, serve};
use std::alloc::Global;
use std::io::BufRead;

// As many bytes as the largest mask needs. An array, since there is no heap for a mask.
const BYTES: usize = MOST_GRANULES as usize / 8;

/// The runtime that answers are printed by, and the lines that are left to read.
#[derive(Debug, Drop)]
pub struct Session<'a, P, R> {
    rt: &'a P,
    lines: Lines<R>,
}

impl<'a, P: Print, R: BufRead> Session<'a, P, R> {
    pub fn new(rt: &'a P, reader: R, alloc: Global) -> Session<'a, P, R>
        ensures line { line_of result.lines ≡ [] }
        ensures number { result.lines.number ≡ 0 }
    {
        Session {
            rt,
            lines: Lines::new(reader, alloc),
        }
    }

    /// From the mask to the end of the input.
    pub(crate) fn converse(&mut self) -> anyhow::Result<()> {
        let Some(granules) = self.first_mask()? else {
            return Ok(());
        };
        let mut bytes = [0; BYTES];
        match Mask::new(&mut bytes, granules) {
            Ok(mask) => {
                self.say(Answer::Mask(Ok(granules)))?;
                self.under_limits(mask)
            }
            Err(refused) => self.say(Answer::Mask(Err(refused.into()))),
        }
    }

    fn say(&self, answer: Answer) -> anyhow::Result<()> {
        println!(self.rt; "{answer}")?;
        Ok(())
    }

    // Says that the line that was read last cannot be answered.
    fn bad_line(&self) -> anyhow::Result<()> {
        let number = self.lines.number();
        println!(self.rt; "bad line {number}")?;
        Ok(())
    }

    // The next request; none at the end of the input. The lines before it that are none are answered.
    fn next_request(&mut self) -> anyhow::Result<Option<Request>>
        ensures asked { IfOk result (λ o. IfSome o (Spells (line_of self.new.lines))) }
        ensures counted { IfOk result (λ o. OnSome o (lines_left self.new.lines < lines_left self.old.lines)) }
    {
        while let Some(line) = self.lines.next()? {
            match line {
                Line::Asks(request) => return Ok(Some(request)),
                Line::Empty => {}
                Line::Bad => self.bad_line()?,
            }
        }
        Ok(None)
    }

    // The granules of the first request for a mask; none where the input ends before one.
    fn first_mask(&mut self) -> anyhow::Result<Option<u32>>
        ensures asked { IfOk result (λ o. IfSome o (λ granules. Spells (line_of self.new.lines) (Request.Mask granules))) }
    {
        while let Some(request) = self.next_request()? {
            match request {
                Request::Mask { granules } => return Ok(Some(granules)),
                _ => self.bad_line()?,
            }
        }
        Ok(None)
    }

    // Answers on a backing until a limiter is wanted, and says its limit; none at the end of the input.
    fn until_limit<B: Backing>(&mut self, backing: &mut B) -> anyhow::Result<Option<u32>>
        ensures asked { IfOk result (λ o. IfSome o (λ limit. Spells (line_of self.new.lines) (Request.Limit limit))) }
        ensures counted { IfOk result (λ o. OnSome o (lines_left self.new.lines < lines_left self.old.lines)) }
    {
        while let Some(request) = self.next_request()? {
            match request {
                Request::Limit { limit } => return Ok(Some(limit)),
                _ => match serve(backing, request) {
                    Some(answer) => self.say(answer)?,
                    None => self.bad_line()?,
                },
            }
        }
        Ok(None)
    }

    // Answers on a backing until a limiter stands on it; none at the end of the input.
    fn until_limited<B: Backing + Drop>(
        &mut self,
        mut backing: B,
    ) -> anyhow::Result<Option<Limiter<B>>>
        ensures asked { IfOk result (λ o. IfSome o (λ l. Spells (line_of self.new.lines) (Request.Limit (limit_of B.Backing.means l)))) }
    {
        while let Some(limit) = self.until_limit(&mut backing)? {
            match Limiter::new(backing, limit) {
                Ok(limiter) => {
                    self.say(Answer::Limit(Ok(limiter.allowance())))?;
                    return Ok(Some(limiter));
                }
                Err(Refused { why, back }) => {
                    self.say(Answer::Limit(Err(why)))?;
                    backing = back;
                }
            }
        }
        Ok(None)
    }

    // Answers to the end of the input, on a backing and at most two limiters.
    fn under_limits<B: Backing + Drop>(&mut self, backing: B) -> anyhow::Result<()> {
        let Some(once) = self.until_limited(backing)? else {
            return Ok(());
        };
        let Some(mut twice) = self.until_limited(once)? else {
            return Ok(());
        };
        while self.until_limit(&mut twice)?.is_some() {
            self.bad_line()?;
        }
        Ok(())
    }
}
