// replace_sm.
ghost use Rattle.std.specs.Prelude.{IfOk};
ghost use Rattle.requests.specs.Reading.{Reads};
ghost use Rattle.requests.specs.Replace.{replace_of, ReplaceInside};

use wire::fields::{Address, Fields, Span, Time};
use wire::status::Status;

#[derive(Clone, Copy)]
pub struct Replace {
    pub id: Option<u32>,
    pub source: Address,
    pub schedule: Time,
    pub validity: Time,
    pub registered: u8,
    pub default: u8,
    pub text: Span,
}

pub fn read_replace(body: &[u8]) -> Result<Replace, Status>
    ensures read { Reads result (replace_of body.now) }
    ensures inside { IfOk result (λ request. ReplaceInside request body.now) }
{
    let mut fields = Fields::of(body);
    let id = fields.id()?;
    let source = fields.address_or(Status::InvalidSource)?;
    let schedule = fields.time()?;
    let validity = fields.time()?;
    let registered = fields.octet_or(1, Status::InvalidRegistered)?;
    let default = fields.octet_or(100, Status::InvalidParameter)?;
    let text = fields.short(default)?;
    fields.end()?;
    Ok(Replace {
        id,
        source,
        schedule,
        validity,
        registered,
        default,
        text,
    })
}
