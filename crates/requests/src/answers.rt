// Answers requests by a backing.
ghost use Rattle.std.specs.Prelude.{◌≡◌, Some};
ghost use Rattle.std.specs.Option.{option_map};
ghost use Rattle.backing.specs.Replies.{reply, written};
ghost use Rattle.requests.specs.Answers.{line_of, answer_line, request_after};

use crate::Request;
use backing::{Backing, Refusal};
use std::fmt;

#[derive(Clone, Copy, Debug, PartialEq, Eq)]
pub enum Answer {
    Mask(Result<u32, Refusal>),
    Limit(Result<u32, Refusal>),
    Commit(Result<u32, Refusal>),
    Release(Result<u32, Refusal>),
    Held(bool),
    Size(u32),
    Allowance(u32),
    Count(u32),
}

impl fmt::Display for Answer {
    ghost output = { λ a. Some (line_of a) };

    fn fmt<W: fmt::Write>(&self, f: &mut fmt::Formatter<W>) -> fmt::Result {
        match self {
            Answer::Mask(r) => write!(f, "mask {}", Outcome(*r)),
            Answer::Limit(r) => write!(f, "limit {}", Outcome(*r)),
            Answer::Commit(r) => write!(f, "commit {}", Outcome(*r)),
            Answer::Release(r) => write!(f, "release {}", Outcome(*r)),
            Answer::Held(true) => write!(f, "held yes"),
            Answer::Held(false) => write!(f, "held no"),
            Answer::Size(n) => write!(f, "size {n}"),
            Answer::Allowance(n) => write!(f, "allowance {n}"),
            Answer::Count(n) => write!(f, "count {n}"),
        }
    }
}

// What a call answered: its number, or why it was refused.
#[derive(Clone, Copy, Debug)]
struct Outcome(Result<u32, Refusal>);

impl fmt::Display for Outcome {
    ghost output = { λ o. Some (written (reply o.0)) };

    fn fmt<W: fmt::Write>(&self, f: &mut fmt::Formatter<W>) -> fmt::Result {
        match self.0 {
            Ok(n) => write!(f, "{n}"),
            Err(e) => write!(f, "{e}"),
        }
    }
}

/// What a backing answers to a request, unless it asks for a new backing or a limiter.
pub fn serve<B: Backing>(backing: &mut B, request: Request) -> Option<Answer>
    ensures answer { option_map line_of result ≡ answer_line (B.Backing.means backing.old) request }
    ensures after { B.Backing.means backing.new ≡ request_after (B.Backing.means backing.old) request }
    ensures spares { B.Backing.spare backing.new ≡ B.Backing.spare backing.old }
{
    match request {
        Request::Mask { granules: _ } => None,
        Request::Limit { limit: _ } => None,
        Request::Commit(stretch) => Some(Answer::Commit(backing.commit(stretch))),
        Request::Release(stretch) => Some(Answer::Release(backing.release(stretch))),
        Request::Held { granule } => Some(Answer::Held(backing.held(granule))),
        Request::Size => Some(Answer::Size(backing.size())),
        Request::Allowance => Some(Answer::Allowance(backing.allowance())),
        Request::Count => Some(Answer::Count(backing.count())),
    }
}
