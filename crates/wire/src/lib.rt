// SMPP v3.3 on the wire, as it is read: framing and the header, the fields of a body.
#![tactic(auto)]

pub mod fields;
pub mod frame;
pub mod status;
