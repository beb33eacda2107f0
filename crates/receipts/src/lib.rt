// Receipts: one is written as a deliver_sm, and a deliver_sm_resp settles it.
#![tactic(auto)]

pub mod deliver_sm;
pub mod offer;
pub mod settle;
