// The forms that texts and times take, on the wire and in stored records alike.
#![tactic(auto)]

pub mod class;
pub mod field;
pub mod text;
pub mod time;
