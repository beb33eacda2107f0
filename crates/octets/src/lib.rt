// Octets in slices: stretches of them compared, tested and copied, and numbers written as octets. Everything above cites these.
#![tactic(auto)]

pub mod number;
pub mod stretch;
