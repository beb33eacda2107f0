// What submit_sm does to ONE account: its sixteen places and its last id.
#![tactic(auto)]

ghost use Rattle.std.specs.Prelude.{◌≡◌, length};
ghost use Rattle.requests.specs.Submit.{SubmitInside};
ghost use Rattle.records.specs.Layout.{part_size};
ghost use Rattle.records.specs.Book.{book_record_size};
ghost use Rattle.store.specs.Places.{OnePlace};
ghost use Rattle.submit.specs.Submit.{fields_of, added, to_replace, stored, submitted, gave};

use changes::Fields;
use requests::submit::Submit;
use wire::fields;
use wire::fields::Address;
use wire::status::Status;

const LAST_OF_ALL: u32 = 0xFFFF_FFFF;

// The id returned, and the last id afterwards.
#[derive(Clone, Copy)]
pub struct Given {
    pub id: u32,
    pub last: u32,
}

fn fields_of(source: Address, s: Submit) -> Fields
    ensures { result ≡ fields_of source.octets s }
{
    let from = source.octets;
    let destination = s.destination.octets;
    let schedule = s.schedule.octets;
    let validity = s.validity.octets;
    Fields {
        source: from,
        destination,
        esm: s.esm,
        protocol: s.protocol,
        priority: s.priority,
        schedule,
        validity,
        registered: s.registered,
        coding: s.coding,
        default: s.default,
    }
}

// A new id and a new place.
fn add(part: &mut [u8], last: u32, source: Address, s: Submit, body: &[u8]) -> Result<Given, Status>
    requires { (length part.old ≡ part_size) × SubmitInside s body.now }
    ensures { gave last result part.new ≡ added source.octets s body.now part.old last }
{
    if last == LAST_OF_ALL {
        return Err(Status::SystemError);
    }
    let Some(k) = store::search::find_new(part) else {
        return Err(Status::QueueFull);
    };
    let id = last + 1;
    changes::put_new(
        part,
        k,
        id,
        fields_of(source, s),
        fields::octets_of(body, s.service),
        fields::octets_of(body, s.text),
    );
    Ok(Given { id, last: id })
}

// The record that the submission replaces.
fn find_replaced(part: &[u8], source: Address, s: Submit) -> Option<usize>
    requires { length part.now ≡ part_size }
    ensures { (result ≡ to_replace source.octets s part.now) × OnePlace result }
{
    if s.replace == 1 {
        let destination = s.destination;
        store::search::find_pair(part, &source.octets, &destination.octets)
    } else {
        None
    }
}

fn store_in(
    part: &mut [u8],
    last: u32,
    source: Address,
    s: Submit,
    body: &[u8],
) -> Result<Given, Status>
    requires { (length part.old ≡ part_size) × SubmitInside s body.now }
    ensures { gave last result part.new ≡ stored source.octets s body.now part.old last }
{
    let Some(k) = find_replaced(part, source, s) else {
        return add(part, last, source, s, body);
    };
    let id = store::places::id_at(part, k);
    changes::retext(part, k, s.default, fields::octets_of(body, s.text));
    Ok(Given { id, last })
}

pub fn submit(book: &[u8], part: &mut [u8], last: u32, body: &[u8]) -> Result<Given, Status>
    requires { (length book.now ≡ book_record_size) × (length part.old ≡ part_size) }
    ensures { gave last result part.new ≡ submitted book.now body.now part.old last }
{
    let s = requests::submit::read_submit(body)?;
    if source::is_none(s.destination) {
        return Err(Status::InvalidDestination);
    }
    let source = source::source_for(book, s.source);
    store_in(part, last, source, s, body)
}
