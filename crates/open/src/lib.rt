// Octets on an open session: it has no account, and no table is at hand.
#![tactic(auto)]

ghost use Rattle.std.specs.Prelude.{◌≡◌, ◌≤◌, length};
ghost use Rattle.answers.specs.Reply.{space_needed};
ghost use Rattle.records.specs.Book.{book_size};
ghost use Rattle.open.specs.Open.{leg_of, bind_to, binds, open_bind, open_command, open_pdu, open_frame, answers, fronts};
ghost use Rattle.wire.specs.Command.{command_of};
ghost use Rattle.wire.specs.Frame.{frame_of};

use answers::{fixed, reply};
use requests::plain;
use session::Entry;
use session::refusal::Refusal;
use wire::frame::Frame;
use wire::status::Status;
use wire::{fields, frame, status};

// What octets on an open session come to: nothing of the account's is at hand.
#[derive(Clone, Copy)]
pub struct Fronted {
    pub consumed: usize,
    pub written: usize,
    pub entry: Entry,
}

fn leg_of(receiver: bool, a: u8) -> Entry
    ensures { result ≡ leg_of receiver a }
{
    if receiver {
        Entry::Receiver(a)
    } else {
        Entry::Transmitter(a)
    }
}

// The session's entry, once it is bound.
fn bind_to(receiver: bool, book: &[u8], body: &[u8]) -> Result<Entry, Status>
    requires { length book.now ≡ book_size }
    ensures { binds result ≡ bind_to receiver book.now body.now }
{
    let request = requests::bind::read_bind(body)?;
    let found = store::search::find_named(
        book,
        fields::octets_of(body, request.system),
        fields::octets_of(body, request.kind),
    );
    let Some(a) = found else {
        return Err(Status::InvalidPassword);
    };
    let record = records::book::record_of(book, a);
    if records::book::is_password(record, fields::octets_of(body, request.password)) {
        Ok(leg_of(receiver, a as u8))
    } else {
        Err(Status::InvalidPassword)
    }
}

fn open_bind(
    receiver: bool,
    id: u32,
    book: &[u8],
    consumed: usize,
    sequence: u32,
    body: &[u8],
    space: &mut [u8],
) -> Fronted
    requires { (length book.now ≡ book_size) × (space_needed ≤ length space.old) }
    ensures { answers result space.new ≡ open_bind receiver id book.now consumed sequence body.now space.old }
{
    let bound = bind_to(receiver, book, body);
    let written = reply::bind(space, id, status::of(bound), sequence);
    Fronted {
        consumed,
        written,
        entry: bound.unwrap_or(Entry::Open),
    }
}

fn stay(consumed: usize, written: usize) -> Fronted
    ensures { result ≡ record { consumed = consumed; written = written; entry = Entry.Open } }
{
    Fronted {
        consumed,
        written,
        entry: Entry::Open,
    }
}

// The command id is matched over its numbers: document 01 names this form.
fn open_command(
    book: &[u8],
    consumed: usize,
    command: u32,
    sequence: u32,
    body: &[u8],
    space: &mut [u8],
) -> Fronted
    requires { (length book.now ≡ book_size) × (space_needed ≤ length space.old) }
    ensures { answers result space.new ≡ open_command book.now consumed sequence body.now space.old (command_of command) }
{
    match command {
        1 => open_bind(true, 0x8000_0001, book, consumed, sequence, body, space),
        2 => open_bind(false, 0x8000_0002, book, consumed, sequence, body, space),
        3 => stay(
            consumed,
            fixed::no_query(space, status::INVALID_BIND_STATUS, sequence),
        ),
        4 => stay(consumed, fixed::no_submission(space, sequence)),
        6 => stay(consumed, fixed::wrong_state(space, 0x8000_0006, sequence)),
        7 => stay(consumed, fixed::wrong_state(space, 0x8000_0007, sequence)),
        8 => stay(consumed, fixed::wrong_state(space, 0x8000_0008, sequence)),
        0x15 => stay(
            consumed,
            fixed::link(space, status::of(plain::read_plain(body)), sequence),
        ),
        0x8000_0000..=0xFFFF_FFFF => stay(consumed, 0),
        _ => stay(consumed, fixed::unknown(space, sequence)),
    }
}

fn open_pdu(book: &[u8], pdu: &[u8], space: &mut [u8]) -> Fronted
    requires { (length book.now ≡ book_size) × ((16 ≤ length pdu.now) × (space_needed ≤ length space.old)) }
    ensures { answers result space.new ≡ open_pdu book.now pdu.now space.old }
{
    let header = frame::read_header(pdu);
    let consumed = pdu.len();
    open_command(
        book,
        consumed,
        header.command,
        header.sequence,
        &pdu[16..],
        space,
    )
}

pub fn on_open(book: &[u8], octets: &[u8], space: &mut [u8]) -> Result<Fronted, Refusal>
    requires { (length book.now ≡ book_size) × (space_needed ≤ length space.old) }
    ensures { fronts result space.new ≡ open_frame book.now octets.now space.old (frame_of octets.now) }
{
    let framed = frame::frame_of(octets);
    match framed {
        Frame::More => Err(Refusal::MoreNeeded),
        Frame::Malformed => {
            let written = fixed::bad_length(space);
            Ok(Fronted {
                consumed: 4,
                written,
                entry: Entry::Ended,
            })
        }
        Frame::Whole(n) => Ok(open_pdu(book, &octets[..n], space)),
    }
}
