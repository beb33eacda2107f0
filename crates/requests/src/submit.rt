// submit_sm.
ghost use Rattle.std.specs.Prelude.{IfOk};
ghost use Rattle.requests.specs.Reading.{Reads};
ghost use Rattle.requests.specs.Submit.{submit_of, SubmitInside};

use forms::text::Form;
use wire::fields::{Address, Fields, Span, Time};
use wire::status::Status;

#[derive(Clone, Copy)]
pub struct Submit {
    pub service: Span,
    pub source: Address,
    pub destination: Address,
    pub esm: u8,
    pub protocol: u8,
    pub priority: u8,
    pub schedule: Time,
    pub validity: Time,
    pub registered: u8,
    pub replace: u8,
    pub coding: u8,
    pub default: u8,
    pub text: Span,
}

pub fn read_submit(body: &[u8]) -> Result<Submit, Status>
    ensures read { Reads result (submit_of body.now) }
    ensures inside { IfOk result (λ request. SubmitInside request body.now) }
{
    let mut fields = Fields::of(body);
    let service = fields.text_or(Form::Ascii, 6, Status::InvalidParameter)?;
    let source = fields.address_or(Status::InvalidSource)?;
    let destination = fields.address_or(Status::InvalidDestination)?;
    let esm = fields.octet_or(255, Status::InvalidCommandLength)?;
    let protocol = fields.octet_or(255, Status::InvalidCommandLength)?;
    let priority = fields.octet_or(1, Status::InvalidPriority)?;
    let schedule = fields.time()?;
    let validity = fields.time()?;
    let registered = fields.octet_or(1, Status::InvalidRegistered)?;
    let replace = fields.octet_or(1, Status::InvalidParameter)?;
    let coding = fields.octet_or(255, Status::InvalidCommandLength)?;
    let default = fields.octet_or(100, Status::InvalidParameter)?;
    let text = fields.short(default)?;
    fields.end()?;
    Ok(Submit {
        service,
        source,
        destination,
        esm,
        protocol,
        priority,
        schedule,
        validity,
        registered,
        replace,
        coding,
        default,
        text,
    })
}
