// What the printing program reads and prints: a record of its input, and the text of a line.
#![tactic(auto)]

pub mod record;
pub mod text;
