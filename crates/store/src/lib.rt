// The sixteen places of one account: what is searched for among them, and whether the account is well formed.
#![tactic(auto)]

pub mod account;
pub mod places;
pub mod search;
