//! A backing as a sorted list of runs, for hosts where committed stretches are few and long.
#![tactic(auto)]

pub mod laws;
mod lent;
mod lists;
mod ordered;
mod rows;

pub use lists::RunList;
pub use rows::Run;
