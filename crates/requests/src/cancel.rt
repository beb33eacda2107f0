// cancel_sm.
ghost use Rattle.std.specs.Prelude.{IfOk};
ghost use Rattle.wire.specs.Fields.{Inside};
ghost use Rattle.requests.specs.Reading.{Reads};
ghost use Rattle.requests.specs.Cancel.{cancel_of};

use forms::text::Form;
use wire::fields::{Address, Fields, Span};
use wire::status::Status;

#[derive(Clone, Copy)]
pub struct Cancel {
    pub service: Span,
    pub id: Option<u32>,
    pub source: Address,
    pub destination: Address,
}

pub fn read_cancel(body: &[u8]) -> Result<Cancel, Status>
    ensures read { Reads result (cancel_of body.now) }
    ensures inside { IfOk result (λ request. Inside request.service body.now) }
{
    let mut fields = Fields::of(body);
    let service = fields.text_or(Form::Ascii, 6, Status::InvalidParameter)?;
    let id = fields.id()?;
    let source = fields.address_or(Status::InvalidSource)?;
    let destination = fields.address_or(Status::InvalidDestination)?;
    fields.end()?;
    Ok(Cancel {
        service,
        id,
        source,
        destination,
    })
}
