// What making a backing in lent memory asks.
ghost use Rattle.std.specs.Prelude.{◌≡◌, length, MatchResult};
ghost use Rattle.backing.specs.Makings.{making, lent_making};
ghost use Rattle.backing.specs.Meaning.{fresh};

use crate::refusals::{Refusal, Refused};

/// The most granules that a backing has.
pub const MOST_GRANULES: u32 = 1024;

/// The memory lent, where there can be a backing of this size that needs so many places of it.
pub fn enough<'a, T>(
    memory: &'a mut [T],
    size: u32,
    needed: usize,
) -> Result<&'a mut [T], Refused<&'a mut [T]>>
    ensures answer { making (λ _. fresh size) result ≡ lent_making size needed (length memory.old) }
    ensures same { MatchResult result (λ lent. lent.now ≡ memory.old) (λ e. e.back.now ≡ memory.old) }
{
    if (1..=MOST_GRANULES).contains(&size) && needed <= memory.len() {
        return Ok(memory);
    }
    Err(Refused {
        why: Refusal::BadMaking,
        back: memory,
    })
}
