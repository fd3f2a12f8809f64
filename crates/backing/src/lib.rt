//! Sets of committed granules: what a backing promises, a bit mask that is one, and a limiter over any.
#![tactic(auto)]

mod bits;
mod interface;
pub mod laws;
mod limits;
mod makings;
mod masks;
mod refusals;
mod stretches;

pub use interface::Backing;
pub use limits::Limiter;
pub use makings::{MOST_GRANULES, enough};
pub use masks::Mask;
pub use refusals::{Refusal, Refused};
pub use stretches::{Span, Stretch};
