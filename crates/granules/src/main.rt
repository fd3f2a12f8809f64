//! Reads requests to a backing, one a line, and prints one answer a line.
#![tactic(auto)]

mod input;
mod session;

use anyhow::bail;
use session::Session;
use std::env;
use std::io::Input;

const HELP: &str =
    "granules: commits and releases granules of a backing, by requests on standard input, one a line.

mask G        first: a mask of G granules, 1 to 1024, none committed
limit L       a limiter on top of what stands, at most twice
commit a n    commits the n granules from a on
release a n   releases them
held g        whether granule g is committed
size, allowance, count

Each request is answered by a line: its word and a number, or its word, no, and why.
A line that is no request is answered by: bad line N";

fn main(rt: HostRuntime) -> anyhow::Result<()> {
    let mut words = env::args(&rt)?;
    let _program = words.next();
    match words.next() {
        None => Session::new(&rt, rt.reader(), rt.alloc()).converse(),
        Some(word) if word.as_str() == "--help" => Ok(println!(rt; "{HELP}")?),
        Some(_) => bail!("granules takes no argument but --help"),
    }
}
