// unbind and enquire_link: a header alone.
ghost use Rattle.std.specs.Prelude.{◌≡◌};
ghost use Rattle.wire.specs.Status.{outcome_status};
ghost use Rattle.requests.specs.Plain.{plain_of};

use wire::fields::Fields;
use wire::status::Status;

// A body that has no fields.
pub fn read_plain(body: &[u8]) -> Result<(), Status>
    ensures { outcome_status result ≡ plain_of body.now }
{
    Fields::of(body).end()
}
