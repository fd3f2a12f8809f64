//! Reads a line of text as a request to the program granules.
#![tactic(auto)]

ghost use Rattle.std.specs.Prelude.{◌≡◌, Some, codes};
ghost use Rattle.std.specs.Result.{result_ok};
ghost use Rattle.requests.specs.Lines.{number_of, alone, with_one, with_two, request_of};

mod answers;

pub use answers::{Answer, serve};
use backing::Stretch;
use std::error::Error;
use std::fmt;
use std::str::FromStr;

#[derive(Clone, Copy, Debug, PartialEq, Eq)]
pub enum Request {
    Mask { granules: u32 },
    Limit { limit: u32 },
    Commit(Stretch),
    Release(Stretch),
    Held { granule: u32 },
    Size,
    Allowance,
    Count,
}

/// A line that spells no request.
#[derive(Clone, Copy, Debug, PartialEq, Eq)]
pub struct NotARequest;

impl fmt::Display for NotARequest {
    ghost output = { λ _. Some (codes "not a request") };

    fn fmt<W: fmt::Write>(&self, f: &mut fmt::Formatter<W>) -> fmt::Result {
        write!(f, "not a request")
    }
}

impl Error for NotARequest {}

impl FromStr for Request {
    type Err = NotARequest;

    ghost from_str_gives = { λ line r. result_ok r ≡ request_of line };

    fn from_str(line: &str) -> Result<Request, NotARequest> {
        let Some((word, numbers)) = line.split_once(' ') else {
            return from_word(line);
        };
        match numbers.split_once(' ') {
            None => from_one(word, number(numbers)?),
            Some((first, count)) => {
                let first = number(first)?;
                let count = number(count)?;
                from_two(word, Stretch { first, count })
            }
        }
    }
}

// A request with no number.
fn from_word(word: &str) -> Result<Request, NotARequest>
    ensures { result_ok result ≡ alone word.now }
{
    match word {
        "size" => Ok(Request::Size),
        "allowance" => Ok(Request::Allowance),
        "count" => Ok(Request::Count),
        _ => Err(NotARequest),
    }
}

// A request with one number.
fn from_one(word: &str, n: u32) -> Result<Request, NotARequest>
    ensures { result_ok result ≡ with_one word.now n }
{
    match word {
        "mask" => Ok(Request::Mask { granules: n }),
        "limit" => Ok(Request::Limit { limit: n }),
        "held" => Ok(Request::Held { granule: n }),
        _ => Err(NotARequest),
    }
}

// A request with two numbers.
fn from_two(word: &str, stretch: Stretch) -> Result<Request, NotARequest>
    ensures { result_ok result ≡ with_two word.now stretch.first stretch.count }
{
    match word {
        "commit" => Ok(Request::Commit(stretch)),
        "release" => Ok(Request::Release(stretch)),
        _ => Err(NotARequest),
    }
}

// The number that a text of digits spells, if it fits.
fn number(text: &str) -> Result<u32, NotARequest>
    ensures { result_ok result ≡ number_of text.now }
{
    // `parse` takes a plus sign too.
    if text.starts_with('+') {
        return Err(NotARequest);
    }
    text.parse::<u32>().or(Err(NotARequest))
}

#[cfg(test)]
mod tests {
    use super::*;

    #[test]
    fn one_number(rt: HostRuntime) {
        assert_eq!(rt;
            "mask 4294967295".parse(),
            Ok(Request::Mask {
                granules: 4294967295,
            })
        );
        assert_eq!(rt; "limit 007".parse(), Ok(Request::Limit { limit: 7 }));
        assert_eq!(rt; "held 0".parse(), Ok(Request::Held { granule: 0 }));
    }

    #[test]
    fn two_numbers(rt: HostRuntime) {
        assert_eq!(rt;
            "commit 3 8".parse(),
            Ok(Request::Commit(Stretch { first: 3, count: 8 }))
        );
        assert_eq!(rt;
            "release 16 1".parse(),
            Ok(Request::Release(Stretch {
                first: 16,
                count: 1,
            }))
        );
    }

    #[test]
    fn no_number(rt: HostRuntime) {
        assert_eq!(rt; "size".parse(), Ok(Request::Size));
        assert_eq!(rt; "allowance".parse(), Ok(Request::Allowance));
        assert_eq!(rt; "count".parse(), Ok(Request::Count));
    }

    #[test]
    fn bad_numbers(rt: HostRuntime) {
        assert_eq!(rt; "mask 4294967296".parse::<Request>(), Err(NotARequest));
        assert_eq!(rt; "mask +5".parse::<Request>(), Err(NotARequest));
        assert_eq!(rt; "mask -5".parse::<Request>(), Err(NotARequest));
        assert_eq!(rt; "mask 5a".parse::<Request>(), Err(NotARequest));
    }

    #[test]
    fn bad_spaces(rt: HostRuntime) {
        assert_eq!(rt; "commit  3 8".parse::<Request>(), Err(NotARequest));
        assert_eq!(rt; "commit 3  8".parse::<Request>(), Err(NotARequest));
        assert_eq!(rt; "limit 5 ".parse::<Request>(), Err(NotARequest));
        assert_eq!(rt; " size".parse::<Request>(), Err(NotARequest));
    }

    #[test]
    fn bad_words(rt: HostRuntime) {
        assert_eq!(rt; "".parse::<Request>(), Err(NotARequest));
        assert_eq!(rt; "sizes".parse::<Request>(), Err(NotARequest));
        assert_eq!(rt; "commit 3".parse::<Request>(), Err(NotARequest));
        assert_eq!(rt; "release 3 8 1".parse::<Request>(), Err(NotARequest));
        assert_eq!(rt; "size 3".parse::<Request>(), Err(NotARequest));
    }
}
