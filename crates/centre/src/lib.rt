// The message centre: the order of refusals, which account is asked, and the public operations.
#![tactic(auto)]

pub mod deliver;
pub mod operations;
mod sizes;
pub mod take;
