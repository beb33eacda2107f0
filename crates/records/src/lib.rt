// One record: of the account book, and of a message.
#![tactic(auto)]

pub mod book;
pub mod layout;
pub mod record;
