// cancel_sm: one message by its id, or all that wait between two addresses.
ghost use Rattle.std.specs.Prelude.{◌≡◌, ◌<◌, length};
ghost use Rattle.forms.specs.Time.{time_length};
ghost use Rattle.records.specs.Layout.{places, part_size};
ghost use Rattle.records.specs.Book.{book_record_size};
ghost use Rattle.wire.specs.Status.{outcome_status};
ghost use Rattle.store.specs.Places.{record_at, on_place, on_places};
ghost use Rattle.account.specs.Cancel.{changed, cancellable, cancelled_one, deleted_if, cancelled_all, cancelled_by, cancelled};

use forms::field;
use records::layout;
use wire::status::Status;

const DELETED: u8 = 4;

fn is_cancellable(
    part: &[u8],
    k: usize,
    source: &[u8; field::ADDRESS_SIZE],
    destination: &[u8; field::ADDRESS_SIZE],
) -> bool
    requires { (length part.now ≡ part_size) × (k < places) }
    ensures { result ≡ cancellable source.now destination.now (record_at k part.now) }
{
    let r = store::places::record_at(part, k);
    let fits = (destination[2] == 0)
        | records::book::is_same_address(
            &r[layout::DESTINATION..layout::SERVICE_TYPE],
            destination,
        );
    records::book::is_same_address(&r[layout::SOURCE..layout::DESTINATION], source)
        & fits
        & (r[layout::STATE] == 1)
}

fn cancel_one(
    part: &mut [u8],
    id: u32,
    source: &[u8; field::ADDRESS_SIZE],
    destination: &[u8; field::ADDRESS_SIZE],
    stamp: &[u8],
) -> Result<(), Status>
    requires { (length part.old ≡ part_size) × (length stamp.now ≡ time_length) }
    ensures { changed (outcome_status result) part.new ≡ cancelled_one id source.now destination.now stamp.now part.old }
{
    let Some(k) = store::search::find_id(part, id) else {
        return Err(Status::InvalidMessageId);
    };
    if !is_cancellable(part, k, source, destination) {
        return Err(Status::CannotCancel);
    }
    changes::finish(part, k, DELETED, 0, stamp);
    Ok(())
}

fn delete_if(
    part: &mut [u8],
    k: usize,
    source: &[u8; field::ADDRESS_SIZE],
    destination: &[u8; field::ADDRESS_SIZE],
    stamp: &[u8],
)
    requires { ((length part.old ≡ part_size) × (k < places)) × (length stamp.now ≡ time_length) }
    ensures { part.new ≡ on_place (deleted_if source.now destination.now stamp.now) k part.old }
{
    if store::search::is_pair_at(part, k, source, destination) {
        changes::finish(part, k, DELETED, 0, stamp);
    }
}

fn delete_all(
    part: &mut [u8],
    source: &[u8; field::ADDRESS_SIZE],
    destination: &[u8; field::ADDRESS_SIZE],
    stamp: &[u8],
)
    requires { (length part.old ≡ part_size) × (length stamp.now ≡ time_length) }
    ensures { part.new ≡ on_places (deleted_if source.now destination.now stamp.now) places 0 part.old }
{
    for k in 0..layout::PLACES {
        delete_if(part, k, source, destination, stamp);
    }
}

fn cancel_all(
    part: &mut [u8],
    source: &[u8; field::ADDRESS_SIZE],
    destination: &[u8; field::ADDRESS_SIZE],
    stamp: &[u8],
) -> Result<(), Status>
    requires { (length part.old ≡ part_size) × (length stamp.now ≡ time_length) }
    ensures { changed (outcome_status result) part.new ≡ cancelled_all source.now destination.now stamp.now part.old }
{
    if destination[2] == 0 {
        return Err(Status::InvalidDestination);
    }
    if store::search::find_pair(part, source, destination).is_none() {
        return Err(Status::CannotCancel);
    }
    delete_all(part, source, destination, stamp);
    Ok(())
}

fn cancel_by(
    part: &mut [u8],
    id: Option<u32>,
    source: &[u8; field::ADDRESS_SIZE],
    destination: &[u8; field::ADDRESS_SIZE],
    stamp: &[u8],
) -> Result<(), Status>
    requires { (length part.old ≡ part_size) × (length stamp.now ≡ time_length) }
    ensures { changed (outcome_status result) part.new ≡ cancelled_by id source.now destination.now stamp.now part.old }
{
    match id {
        None => cancel_all(part, source, destination, stamp),
        Some(n) => cancel_one(part, n, source, destination, stamp),
    }
}

pub fn cancel(book: &[u8], part: &mut [u8], stamp: &[u8], body: &[u8]) -> Result<(), Status>
    requires { ((length book.now ≡ book_record_size) × (length part.old ≡ part_size)) × (length stamp.now ≡ time_length) }
    ensures { changed (outcome_status result) part.new ≡ cancelled book.now stamp.now body.now part.old }
{
    let request = requests::cancel::read_cancel(body)?;
    let source = source::source_for(book, request.source);
    let destination = request.destination;
    cancel_by(part, request.id, &source.octets, &destination.octets, stamp)
}
