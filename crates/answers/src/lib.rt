// The octets of a reply.
#![tactic(auto)]

pub mod fixed;
pub mod reply;
