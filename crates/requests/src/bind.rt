// bind_receiver and bind_transmitter.
ghost use Rattle.std.specs.Prelude.{IfOk};
ghost use Rattle.requests.specs.Reading.{Reads};
ghost use Rattle.requests.specs.Bind.{bind_of, BindInside};

use forms::text::Form;
use wire::fields::{Fields, Span};
use wire::status::Status;

#[derive(Clone, Copy)]
pub struct Bind {
    pub system: Span,
    pub password: Span,
    pub kind: Span,
    pub version: u8,
    pub ton: u8,
    pub npi: u8,
    pub range: Span,
}

pub fn read_bind(body: &[u8]) -> Result<Bind, Status>
    ensures read { Reads result (bind_of body.now) }
    ensures inside { IfOk result (λ request. BindInside request body.now) }
{
    let mut fields = Fields::of(body);
    let system = fields.text_or(Form::Ascii, 16, Status::InvalidParameter)?;
    let password = fields.text_or(Form::Ascii, 9, Status::InvalidParameter)?;
    let kind = fields.text_or(Form::Ascii, 13, Status::InvalidParameter)?;
    let version = fields.octet_or(255, Status::InvalidCommandLength)?;
    let ton = fields.octet_or(255, Status::InvalidCommandLength)?;
    let npi = fields.octet_or(255, Status::InvalidCommandLength)?;
    let range = fields.text_or(Form::Ascii, 41, Status::InvalidParameter)?;
    fields.end()?;
    Ok(Bind {
        system,
        password,
        kind,
        version,
        ton,
        npi,
        range,
    })
}
