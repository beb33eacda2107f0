// query_sm.
ghost use Rattle.requests.specs.Reading.{Reads};
ghost use Rattle.requests.specs.Query.{query_of};

use wire::fields::{Address, Fields};
use wire::status::Status;

#[derive(Clone, Copy)]
pub struct Query {
    pub id: Option<u32>,
    pub source: Address,
}

pub fn read_query(body: &[u8]) -> Result<Query, Status>
    ensures { Reads result (query_of body.now) }
{
    let mut fields = Fields::of(body);
    let id = fields.id()?;
    let source = fields.address_or(Status::InvalidSource)?;
    fields.end()?;
    Ok(Query { id, source })
}
