// Taking octets on a session.
ghost use Rattle.std.specs.Prelude.{◌≡◌, ℕ, ◌<◌, ◌≤◌, List, length, set, OnOk};
ghost use Rattle.forms.specs.Time.{time_length};
ghost use Rattle.answers.specs.Reply.{space_needed};
ghost use Rattle.records.specs.Book.{book_size};
ghost use Rattle.session.specs.State.{session_count, account_count, ended, issued, receipts_of, granted};
ghost use Rattle.session.specs.Refusal.{outcome_number};
ghost use Rattle.session.specs.declared.Entry.TheVariants.{Open};
ghost use Rattle.isolation.specs.Platform.{table_size, Step, become, on_account, on_entry};
ghost use Rattle.octets.specs.Choice.{when◌then◌else◌};
ghost use Rattle.answers.specs.Answer.{Call};
ghost use Rattle.bound.specs.Bound.{is_transmitter};
ghost use Rattle.centre.specs.Centre.{octets_early, Fit, centre, step, world, takes};

use crate::sizes;
use answers::reply;
use records::layout;
use session::refusal::Refusal;
use session::{Entry, Handed, Receipt, State};

// How many octets were consumed and written.
#[derive(Clone, Copy)]
pub struct Taken {
    pub consumed: usize,
    pub written: usize,
}

// What the sizes and the stamp refuse: 3, 4, 5.
fn check(book: usize, table: usize, stamp: &[u8], space: usize) -> Result<(), Refusal>
    ensures early { outcome_number result ≡ octets_early book table stamp.now space }
    ensures fit { OnOk result (Fit book table stamp.now space) }
{
    if sizes::is_wrong(book, table) {
        return Err(Refusal::WrongSize);
    }
    if space < reply::SPACE_NEEDED {
        return Err(Refusal::SpaceTooShort);
    }
    if !forms::time::is_sent_time(stamp) {
        return Err(Refusal::StampIllFormed);
    }
    Ok(())
}

// A session that stays open is left as it was.
fn follow(state: State, session: usize, entry: Entry) -> State
    requires { session < session_count }
    ensures { (table : List ℕ) → world result table ≡ become (world state table) session entry }
{
    match entry {
        Entry::Open => state,
        _ => state.bind(session, entry),
    }
}

fn take_open(
    book: &[u8],
    state: State,
    session: usize,
    octets: &[u8],
    space: &mut [u8],
) -> Handed<Taken>
    requires { (length book.now ≡ book_size) × ((session < session_count) × (space_needed ≤ length space.old)) }
    ensures { (stamp table : List ℕ) → takes result table space.new ≡ on_entry centre book.now (world state table) session (Call.taking (record { octets = octets.entry.now; stamp = stamp; space = space.old })) Open }
{
    match open::on_open(book, octets, space) {
        Err(refusal) => Handed::refused(refusal, state),
        Ok(fronted) => Handed {
            outcome: Ok(Taken {
                consumed: fronted.consumed,
                written: fronted.written,
            }),
            state: follow(state, session, fronted.entry),
        },
    }
}

// A session that ends, or goes on with this receipt; the account's last id.
fn conclude(
    state: State,
    session: usize,
    account: usize,
    ends: bool,
    receipt: Option<Receipt>,
    last: u32,
) -> State
    requires { (session < session_count) × (account < account_count) }
    ensures { result ≡ issued (granted (when ends then ended state session else state) account (set (receipts_of state account) session receipt)) account last }
{
    if ends {
        let over = state.unbind(session);
        over.issue(account, last)
    } else {
        state.grant(session, account, receipt, last)
    }
}

fn take_bound(
    book: &[u8],
    table: &mut [u8],
    state: State,
    session: usize,
    entry: Entry,
    transmitter: bool,
    a: u8,
    octets: &[u8],
    stamp: &[u8],
    space: &mut [u8],
) -> Handed<Taken>
    requires platform { ((length book.now ≡ book_size) × (length table.old ≡ table_size)) × ((session < session_count) × (is_transmitter entry ≡ transmitter)) }
    requires call { (length stamp.now ≡ time_length) × (space_needed ≤ length space.old) }
    ensures { takes result table.new space.new ≡ on_account centre book.now (world state table.old) session (Call.taking (record { octets = octets.entry.now; stamp = stamp.now; space = space.old })) entry a }
{
    let account = a as usize;
    if layout::ACCOUNTS <= account {
        return Handed::refused(Refusal::AccountIllFormed, state);
    }
    let record = records::book::record_of(book, account);
    let last = state.lasts[account];
    let receipt = session::receipt_for(account, state.sessions[session]);
    let at = layout::PART_SIZE * account;
    let came = bound::on_bound(
        transmitter,
        record,
        octets,
        stamp,
        space,
        &mut table[at..at + layout::PART_SIZE],
        last,
        receipt,
    );
    match came {
        Err(refusal) => Handed::refused(refusal, state),
        Ok(handled) => {
            let acted = handled.acted;
            let kept = handled.receipt;
            let next = conclude(state, session, account, acted.ends, kept, acted.last);
            Handed {
                outcome: Ok(Taken {
                    consumed: acted.consumed,
                    written: acted.written,
                }),
                state: next,
            }
        }
    }
}

// Deals with at most one PDU. The first number that applies is given: 2, 3, 4, 5, 6, 9, then 1.
pub fn take(
    book: &[u8],
    table: &mut [u8],
    state: State,
    session: usize,
    octets: &[u8],
    stamp: &[u8],
    space: &mut [u8],
) -> Handed<Taken>
    ensures { takes result table.new space.new ≡ step book.now (world state table.old) (Step.on session (Call.taking (record { octets = octets.entry.now; stamp = stamp.now; space = space.old }))) }
{
    if session::SESSIONS <= session {
        return Handed::refused(Refusal::NoSession, state);
    }
    if let Err(refusal) = check(book.len(), table.len(), stamp, space.len()) {
        return Handed::refused(refusal, state);
    }
    let entry = state.sessions[session].entry;
    match entry {
        Entry::Closed | Entry::Ended => Handed::refused(Refusal::UnfitSession, state),
        Entry::Open => take_open(book, state, session, octets, space),
        Entry::Transmitter(a) => take_bound(
            book, table, state, session, entry, true, a, octets, stamp, space,
        ),
        Entry::Receiver(a) => take_bound(
            book, table, state, session, entry, false, a, octets, stamp, space,
        ),
    }
}
