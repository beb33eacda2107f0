// Octets on a bound session: what is asked of one account, of which its book record, its part of the table and its last id are at hand, and the
// receipt that is outstanding on the session.
#![tactic(auto)]

ghost use Rattle.std.specs.Prelude.{◌≡◌, false, ◌<◌, ◌≤◌, [], length};
ghost use Rattle.forms.specs.Time.{time_length};
ghost use Rattle.wire.specs.Frame.{frame_of, header_of};
ghost use Rattle.wire.specs.Status.{already_bound};
ghost use Rattle.answers.specs.Reply.{space_needed, bind_body, reply, over, wrote};
ghost use Rattle.records.specs.Layout.{places, part_size};
ghost use Rattle.records.specs.Book.{book_record_size};
ghost use Rattle.store.specs.Places.{record_at};
ghost use Rattle.bound.specs.Bound.{wire_state, found_body, submit_turn, query_turn, cancel_turn, replace_turn, unbind_turn, replying, bound_pdu, bound_frame, on_bound, storing, holding, settled_by, acts, handles, comes_to};

use answers::{fixed, reply};
use records::layout;
use requests::plain;
use session::Receipt;
use session::refusal::Refusal;
use wire::frame::Frame;
use wire::{frame, status};

// What an account's turn comes to; its part stands where it was lent. That the session ends is a fact beside the counts, as in the definition.
#[derive(Clone, Copy)]
pub struct Acted {
    pub consumed: usize,
    pub written: usize,
    pub last: u32,
    pub ends: bool,
}

fn spoken(consumed: usize, written: usize, last: u32) -> Acted
    ensures { result ≡ record { consumed = consumed; written = written; last = last; ends = false } }
{
    Acted {
        consumed,
        written,
        last,
        ends: false,
    }
}

fn submit_turn(
    transmitter: bool,
    book: &[u8],
    consumed: usize,
    sequence: u32,
    body: &[u8],
    space: &mut [u8],
    part: &mut [u8],
    last: u32,
) -> Acted
    requires { (length book.now ≡ book_record_size) × ((length part.old ≡ part_size) × (space_needed ≤ length space.old)) }
    ensures { acts result part.new space.new ≡ replying consumed 0x80000004 sequence (submit_turn transmitter book.now body.now (storing part.old last)) space.old }
{
    if !transmitter {
        let written = fixed::no_submission(space, sequence);
        return spoken(consumed, written, last);
    }
    match submit::submit(book, part, last, body) {
        Ok(given) => {
            let written = reply::submit(space, status::OK, sequence, Some(given.id));
            spoken(consumed, written, given.last)
        }
        Err(status) => {
            let written = reply::submit(space, status.code(), sequence, None);
            spoken(consumed, written, last)
        }
    }
}

fn wire_state(state: u8) -> u8
    ensures { result ≡ wire_state state }
{
    if state == 0 { 0 } else { state - 1 }
}

// The reply to a query of the record at place k.
fn write_found(part: &[u8], k: usize, sequence: u32, space: &mut [u8]) -> usize
    requires { ((length part.now ≡ part_size) × (k < places)) × (space_needed ≤ length space.old) }
    ensures { wrote result space.new ≡ over (reply 0x80000003 0 sequence (found_body (record_at k part.now))) space.old }
{
    let r = store::places::record_at(part, k);
    let id = octets::number::number_at(r, layout::ID);
    let date = forms::field::text_of(&r[layout::FINAL_DATE..layout::ERROR_CODE]);
    let state = wire_state(r[layout::STATE]);
    let error = r[layout::ERROR_CODE];
    reply::query(space, status::OK, sequence, Some(id), date, state, error)
}

fn query_turn(
    transmitter: bool,
    book: &[u8],
    consumed: usize,
    sequence: u32,
    body: &[u8],
    space: &mut [u8],
    part: &[u8],
    last: u32,
) -> Acted
    requires { (length book.now ≡ book_record_size) × ((length part.now ≡ part_size) × (space_needed ≤ length space.old)) }
    ensures { acts result part.now space.new ≡ replying consumed 0x80000003 sequence (query_turn transmitter book.now body.now (storing part.now last)) space.old }
{
    if !transmitter {
        let written = fixed::no_query(space, status::INVALID_BIND_STATUS, sequence);
        return spoken(consumed, written, last);
    }
    match account::query::query(book, part, body) {
        Ok(k) => spoken(consumed, write_found(part, k, sequence, space), last),
        Err(status) => {
            let written = fixed::no_query(space, status.code(), sequence);
            spoken(consumed, written, last)
        }
    }
}

fn cancel_turn(
    transmitter: bool,
    book: &[u8],
    stamp: &[u8],
    consumed: usize,
    sequence: u32,
    body: &[u8],
    space: &mut [u8],
    part: &mut [u8],
    last: u32,
) -> Acted
    requires { ((length book.now ≡ book_record_size) × (length stamp.now ≡ time_length)) × ((length part.old ≡ part_size) × (space_needed ≤ length space.old)) }
    ensures { acts result part.new space.new ≡ replying consumed 0x80000008 sequence (cancel_turn transmitter book.now stamp.now body.now (storing part.old last)) space.old }
{
    if !transmitter {
        let written = fixed::wrong_state(space, 0x8000_0008, sequence);
        return spoken(consumed, written, last);
    }
    let cancelled = account::cancel::cancel(book, part, stamp, body);
    let written = reply::bare(space, 0x8000_0008, status::of(cancelled), sequence);
    spoken(consumed, written, last)
}

fn replace_turn(
    transmitter: bool,
    book: &[u8],
    consumed: usize,
    sequence: u32,
    body: &[u8],
    space: &mut [u8],
    part: &mut [u8],
    last: u32,
) -> Acted
    requires { (length book.now ≡ book_record_size) × ((length part.old ≡ part_size) × (space_needed ≤ length space.old)) }
    ensures { acts result part.new space.new ≡ replying consumed 0x80000007 sequence (replace_turn transmitter book.now body.now (storing part.old last)) space.old }
{
    if !transmitter {
        let written = fixed::wrong_state(space, 0x8000_0007, sequence);
        return spoken(consumed, written, last);
    }
    let replaced = account::replace::replace(book, part, body);
    let written = reply::bare(space, 0x8000_0007, status::of(replaced), sequence);
    spoken(consumed, written, last)
}

fn unbind_turn(consumed: usize, sequence: u32, body: &[u8], space: &mut [u8], last: u32) -> Acted
    requires { space_needed ≤ length space.old }
    ensures { acts result [] space.new ≡ replying consumed 0x80000006 sequence (unbind_turn body.now (storing [] last)) space.old }
{
    let read = plain::read_plain(body);
    let written = reply::bare(space, 0x8000_0006, status::of(read), sequence);
    Acted {
        consumed,
        written,
        last,
        ends: read.is_ok(),
    }
}

fn already_bound(space: &mut [u8], id: u32, sequence: u32) -> usize
    requires { space_needed ≤ length space.old }
    ensures { wrote result space.new ≡ over (reply id already_bound sequence bind_body) space.old }
{
    reply::bind(space, id, status::ALREADY_BOUND, sequence)
}

// One whole PDU. The command id is matched over its numbers: document 01 names this form.
fn command(
    transmitter: bool,
    book: &[u8],
    stamp: &[u8],
    pdu: &[u8],
    space: &mut [u8],
    part: &mut [u8],
    last: u32,
) -> Acted
    requires { ((length book.now ≡ book_record_size) × (length stamp.now ≡ time_length)) × ((16 ≤ length pdu.now) × ((length part.old ≡ part_size) × (space_needed ≤ length space.old))) }
    ensures { acts result part.new space.new ≡ bound_pdu transmitter book.now stamp.now pdu.now space.old (storing part.old last) }
{
    let header = frame::read_header(pdu);
    let id = header.command;
    let sequence = header.sequence;
    let n = pdu.len();
    let body = &pdu[16..];
    match id {
        1 => spoken(n, already_bound(space, 0x8000_0001, sequence), last),
        2 => spoken(n, already_bound(space, 0x8000_0002, sequence), last),
        3 => query_turn(transmitter, book, n, sequence, body, space, &part[..], last),
        4 => submit_turn(transmitter, book, n, sequence, body, space, part, last),
        6 => unbind_turn(n, sequence, body, space, last),
        7 => replace_turn(transmitter, book, n, sequence, body, space, part, last),
        8 => cancel_turn(
            transmitter,
            book,
            stamp,
            n,
            sequence,
            body,
            space,
            part,
            last,
        ),
        0x15 => spoken(
            n,
            fixed::link(space, status::of(plain::read_plain(body)), sequence),
            last,
        ),
        0x8000_0000..=0xFFFF_FFFF => spoken(n, 0, last),
        _ => spoken(n, fixed::unknown(space, sequence), last),
    }
}

// What octets come to, and the session's receipt afterwards.
#[derive(Clone, Copy)]
pub struct Handled {
    pub acted: Acted,
    pub receipt: Option<Receipt>,
}

// A PDU is answered, and then may settle the receipt.
fn handle(
    transmitter: bool,
    book: &[u8],
    stamp: &[u8],
    pdu: &[u8],
    space: &mut [u8],
    part: &mut [u8],
    last: u32,
    receipt: Option<Receipt>,
) -> Handled
    requires { ((length book.now ≡ book_record_size) × (length stamp.now ≡ time_length)) × ((16 ≤ length pdu.now) × ((length part.old ≡ part_size) × (space_needed ≤ length space.old))) }
    ensures { handles result part.new space.new ≡ settled_by (header_of pdu.now) receipt (bound_pdu transmitter book.now stamp.now pdu.now space.old (storing part.old last)) }
{
    let acted = command(transmitter, book, stamp, pdu, space, part, last);
    let header = frame::read_header(pdu);
    let receipt = receipts::settle::settle(part, header, receipt);
    Handled { acted, receipt }
}

// The first PDU of the octets.
fn framed(
    transmitter: bool,
    book: &[u8],
    octets: &[u8],
    stamp: &[u8],
    space: &mut [u8],
    part: &mut [u8],
    last: u32,
    receipt: Option<Receipt>,
) -> Result<Handled, Refusal>
    requires { ((length book.now ≡ book_record_size) × (length stamp.now ≡ time_length)) × ((length part.old ≡ part_size) × (space_needed ≤ length space.old)) }
    ensures { comes_to last receipt result part.new space.new ≡ bound_frame transmitter book.now octets.now stamp.now space.old (frame_of octets.now) (holding part.old last receipt) }
{
    let first = frame::frame_of(octets);
    match first {
        Frame::More => Err(Refusal::MoreNeeded),
        Frame::Malformed => {
            let written = fixed::bad_length(space);
            let acted = Acted {
                consumed: 4,
                written,
                last,
                ends: true,
            };
            Ok(Handled { acted, receipt })
        }
        Frame::Whole(n) => Ok(handle(
            transmitter,
            book,
            stamp,
            &octets[..n],
            space,
            part,
            last,
            receipt,
        )),
    }
}

// The account is tested once, and then asked.
pub fn on_bound(
    transmitter: bool,
    book: &[u8],
    octets: &[u8],
    stamp: &[u8],
    space: &mut [u8],
    part: &mut [u8],
    last: u32,
    receipt: Option<Receipt>,
) -> Result<Handled, Refusal>
    requires { ((length book.now ≡ book_record_size) × (length stamp.now ≡ time_length)) × ((length part.old ≡ part_size) × (space_needed ≤ length space.old)) }
    ensures { comes_to last receipt result part.new space.new ≡ on_bound transmitter book.now (record { octets = octets.entry.now; stamp = stamp.now; space = space.old }) (holding part.old last receipt) }
{
    if store::account::is_account_ok(book, last, &part[..]) {
        framed(transmitter, book, octets, stamp, space, part, last, receipt)
    } else {
        Err(Refusal::AccountIllFormed)
    }
}
