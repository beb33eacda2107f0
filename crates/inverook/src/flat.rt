// The state as C holds it: numbers in arrays, and no enum.
ghost use Rattle.std.specs.Prelude.{◌≡◌, ◌<◌};
ghost use Rattle.session.specs.State.{session_count};
ghost use Rattle.inverook.specs.Flat.{entry_of, receipt_of, session_at, state_of, entry_kind, entry_account, told, flat_of};

use records::layout;
use session::{Entry, Receipt, Session, State};
use std::array;

// inverook_state of include/inverook.h.
#[repr(C)]
#[derive(Clone, Copy)]
pub struct InverookState {
    pub kinds: [u8; session::SESSIONS],
    pub accounts: [u8; session::SESSIONS],
    pub lasts: [u32; layout::ACCOUNTS],
    pub receipts: [u32; session::SESSIONS],
    pub sequences: [u32; session::SESSIONS],
}

// No `From`: the entry is another crate's type, and the two numbers are nobody's.
fn entry_of(kind: u8, account: u8) -> Entry
    ensures { result ≡ entry_of kind account }
{
    match kind {
        0 => Entry::Closed,
        1 => Entry::Open,
        2 => Entry::Transmitter(account),
        3 => Entry::Receiver(account),
        _ => Entry::Ended,
    }
}

// Only a receiver's receipt is looked at, and none has id 0.
fn receipt_of(kind: u8, id: u32, sequence: u32) -> Option<Receipt>
    ensures { result ≡ receipt_of kind id sequence }
{
    if (kind == 3) & (id != 0) {
        Some(Receipt { id, sequence })
    } else {
        None
    }
}

impl InverookState {
    fn session(&self, i: usize) -> Session
        requires { i < session_count }
        ensures { result ≡ session_at self.now i }
    {
        let kind = self.kinds[i];
        Session {
            entry: entry_of(kind, self.accounts[i]),
            receipt: receipt_of(kind, self.receipts[i], self.sequences[i]),
        }
    }
}

impl From<InverookState> for State {
    ghost from_gives = { λ flat st. st ≡ state_of flat };

    fn from(flat: InverookState) -> State {
        State {
            sessions: array::from_fn(|i| flat.session(i)),
            lasts: flat.lasts,
        }
    }
}

// An entry's kind and its account are numbers of C, each half of the entry, so they are no `From` either.
fn kind_of(entry: Entry) -> u8
    ensures { result ≡ entry_kind entry }
{
    match entry {
        Entry::Closed => 0,
        Entry::Open => 1,
        Entry::Transmitter(_) => 2,
        Entry::Receiver(_) => 3,
        Entry::Ended => 4,
    }
}

fn account_of(entry: Entry) -> u8
    ensures { result ≡ entry_account entry }
{
    match entry {
        Entry::Transmitter(a) | Entry::Receiver(a) => a,
        _ => 0,
    }
}

// What is outstanding on a receiver.
fn told(x: Session) -> Option<Receipt>
    ensures { result ≡ told x }
{
    match x.entry {
        Entry::Receiver(_) => x.receipt,
        _ => None,
    }
}

// By the index: with an array's `map` an opening took twice as long.
impl From<State> for InverookState {
    ghost from_gives = { λ st flat. flat ≡ flat_of st };

    fn from(state: State) -> InverookState {
        let State { sessions, lasts } = state;
        InverookState {
            kinds: array::from_fn(|i| kind_of(sessions[i].entry)),
            accounts: array::from_fn(|i| account_of(sessions[i].entry)),
            lasts,
            receipts: array::from_fn(|i| session::held_id(told(sessions[i]))),
            sequences: array::from_fn(|i| session::held_sequence(told(sessions[i]))),
        }
    }
}
