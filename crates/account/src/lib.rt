// What query, cancel, replace and an outcome do to ONE account: its book record and its sixteen places. By their types these functions can't see a
// neighbour.
#![tactic(auto)]

pub mod cancel;
pub mod outcome;
pub mod query;
pub mod replace;
