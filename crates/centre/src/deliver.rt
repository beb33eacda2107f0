// Writing a receipt to a session.
ghost use Rattle.std.specs.Prelude.{◌≡◌, ◌<◌, ◌≤◌, length, OnOk};
ghost use Rattle.records.specs.Book.{book_size};
ghost use Rattle.session.specs.Refusal.{outcome_number};
ghost use Rattle.session.specs.State.{session_count, receiver_of};
ghost use Rattle.isolation.specs.Platform.{table_size, Step, on_account};
ghost use Rattle.answers.specs.Answer.{Call};
ghost use Rattle.receipts.specs.DeliverSm.{longest_delivery};
ghost use Rattle.centre.specs.Centre.{delivery_early, Fitting, centre, step, world, delivers};

use crate::sizes;
use receipts::deliver_sm;
use records::layout;
use session::refusal::Refusal;
use session::{Entry, Handed, State};

// What the sizes refuse: 3, 4.
fn check(book: usize, table: usize, space: usize) -> Result<(), Refusal>
    ensures early { outcome_number result ≡ delivery_early book table space }
    ensures fit { OnOk result (Fitting book table space) }
{
    if sizes::is_wrong(book, table) {
        return Err(Refusal::WrongSize);
    }
    if space < deliver_sm::LONGEST {
        return Err(Refusal::SpaceTooShort);
    }
    Ok(())
}

fn deliver_bound(
    book: &[u8],
    table: &[u8],
    state: State,
    session: usize,
    entry: Entry,
    receiver: bool,
    a: u8,
    sequence: u32,
    space: &mut [u8],
) -> Handed<usize>
    requires platform { ((length book.now ≡ book_size) × (length table.now ≡ table_size)) × ((session < session_count) × (receiver_of a entry ≡ receiver)) }
    requires call { longest_delivery ≤ length space.old }
    ensures { delivers result table.now space.new ≡ on_account centre book.now (world state table.now) session (Call.delivering (record { sequence = sequence; space = space.old })) entry a }
{
    let account = a as usize;
    if layout::ACCOUNTS <= account {
        return Handed::refused(Refusal::AccountIllFormed, state);
    }
    let record = records::book::record_of(book, account);
    let last = state.lasts[account];
    let receipt = session::receipt_for(account, state.sessions[session]);
    let ids = state.held(account);
    let at = layout::PART_SIZE * account;
    let offered = receipts::offer::offer_receipt(
        receiver,
        record,
        last,
        &table[at..at + layout::PART_SIZE],
        &ids,
        receipt,
        sequence,
        space,
    );
    match offered {
        Err(refusal) => Handed::refused(refusal, state),
        Ok(offer) => Handed {
            outcome: Ok(offer.written),
            state: state.grant(session, account, Some(offer.receipt), last),
        },
    }
}

// Writes one deliver_sm, for the lowest id owed, and tells how many octets it has. The first number that applies is given: 2, 3, 4, 6, 9, 12, 13.
pub fn deliver(
    book: &[u8],
    table: &[u8],
    state: State,
    session: usize,
    sequence: u32,
    space: &mut [u8],
) -> Handed<usize>
    ensures { delivers result table.now space.new ≡ step book.now (world state table.now) (Step.on session (Call.delivering (record { sequence = sequence; space = space.old }))) }
{
    if session::SESSIONS <= session {
        return Handed::refused(Refusal::NoSession, state);
    }
    if let Err(refusal) = check(book.len(), table.len(), space.len()) {
        return Handed::refused(refusal, state);
    }
    let entry = state.sessions[session].entry;
    match entry {
        Entry::Closed | Entry::Ended => Handed::refused(Refusal::UnfitSession, state),
        Entry::Open => Handed::refused(Refusal::NoReceiver, state),
        Entry::Transmitter(a) => deliver_bound(
            book, table, state, session, entry, false, a, sequence, space,
        ),
        Entry::Receiver(a) => deliver_bound(
            book, table, state, session, entry, true, a, sequence, space,
        ),
    }
}
