// The bodies of the requests (002, 6.3): fields from left to right, then octets left over. A reader answers the request, or the status that
// refuses the body.
#![tactic(auto)]

pub mod bind;
pub mod cancel;
pub mod plain;
pub mod query;
pub mod replace;
pub mod submit;
