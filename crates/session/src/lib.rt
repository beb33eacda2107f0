// The state: sixteen sessions, each with the receipt that is outstanding on it, and eight last-issued ids. It goes in by value and comes back.
#![tactic(auto)]

pub mod refusal;

ghost use Rattle.std.specs.Prelude.{◌≡◌, ◌<◌, set, Err};
ghost use Rattle.session.specs.State.{session_count, account_count, fresh, opened, closed, moved_to, bound, ended, issued, receiver_of, receipt_for, receipts_of, held_id, held_sequence, held_ids, granted};

use crate::refusal::Refusal;
use records::layout;
use std::array;

// Exactly one of these, each session.
#[derive(Clone, Copy)]
pub enum Entry {
    Closed,
    Open,
    Transmitter(u8),
    Receiver(u8),
    Ended,
}

// A receipt that the session's peer has not answered yet: its message's id and its sequence number.
#[derive(Clone, Copy)]
pub struct Receipt {
    pub id: u32,
    pub sequence: u32,
}

// Only a receiver's receipt counts.
#[derive(Clone, Copy)]
pub struct Session {
    pub entry: Entry,
    pub receipt: Option<Receipt>,
}

#[derive(Clone, Copy)]
pub struct State {
    pub sessions: [Session; SESSIONS],
    pub lasts: [u32; layout::ACCOUNTS],
}

// What a call comes to, and the state handed back, on a refusal too: document 01 names this form.
#[derive(Clone, Copy)]
pub struct Handed<T> {
    pub outcome: Result<T, Refusal>,
    pub state: State,
}

impl<T> Handed<T> {
    // The state stays as it was.
    pub fn refused(refusal: Refusal, state: State) -> Handed<T>
        ensures { result ≡ record { outcome = Err refusal; state = state } }
    {
        Handed {
            outcome: Err(refusal),
            state,
        }
    }
}

pub const SESSIONS: usize = 16;

// The id that is outstanding, or 0.
pub fn held_id(receipt: Option<Receipt>) -> u32
    ensures { result ≡ held_id receipt }
{
    receipt.map_or(0, |r| r.id)
}

// Its sequence number, or 0.
pub fn held_sequence(receipt: Option<Receipt>) -> u32
    ensures { result ≡ held_sequence receipt }
{
    receipt.map_or(0, |r| r.sequence)
}

fn is_receiver_of(account: usize, entry: Entry) -> bool
    ensures { result ≡ receiver_of account entry }
{
    matches!(entry, Entry::Receiver(a) if a as usize == account)
}

// What is outstanding on a session for the account.
pub fn receipt_for(account: usize, x: Session) -> Option<Receipt>
    ensures { result ≡ receipt_for account x }
{
    if is_receiver_of(account, x.entry) {
        x.receipt
    } else {
        None
    }
}

impl State {
    // All sessions closed, all last ids 0. No `Default` beside it: fresh is the outline's word, and two names for one state are no plainer.
    pub fn fresh() -> State
        ensures { result ≡ fresh }
    {
        let sessions = [Session {
            entry: Entry::Closed,
            receipt: None,
        }; SESSIONS];
        State {
            sessions,
            lasts: [0; layout::ACCOUNTS],
        }
    }

    pub fn issue(mut self, account: usize, last: u32) -> State
        requires { account < account_count }
        ensures { result ≡ issued self account last }
    {
        self.lasts[account] = last;
        self
    }

    // No receipt is outstanding on it afterwards.
    pub fn bind(mut self, session: usize, entry: Entry) -> State
        requires { session < session_count }
        ensures { result ≡ bound self session entry }
    {
        self.sessions[session] = Session {
            entry,
            receipt: None,
        };
        self
    }

    // An account's last id, and the receipt of one of its sessions: only a receiver of the account is given one.
    pub fn grant(
        mut self,
        session: usize,
        account: usize,
        receipt: Option<Receipt>,
        last: u32,
    ) -> State
        requires { (session < session_count) × (account < account_count) }
        ensures { result ≡ issued (granted self account (set (receipts_of self account) session receipt)) account last }
    {
        self.lasts[account] = last;
        if is_receiver_of(account, self.sessions[session].entry) {
            self.sessions[session].receipt = receipt;
        }
        self
    }

    // The ids that the account's receivers hold outstanding, session by session; 0 for none. By the index: a wrong answer that goes by the session's
    // number can then be written without a closure that counts, which the proof of a `map` allows to none, right or wrong.
    pub fn held(self, account: usize) -> [u32; SESSIONS]
        ensures { result ≡ held_ids self account }
    {
        array::from_fn(|i| held_id(receipt_for(account, self.sessions[i])))
    }

    pub fn unbind(self, session: usize) -> State
        requires { session < session_count }
        ensures { result ≡ ended self session }
    {
        self.bind(session, Entry::Ended)
    }

    pub fn open(self, session: usize) -> Handed<()>
        ensures { moved_to result ≡ opened self session }
    {
        if SESSIONS <= session {
            return Handed::refused(Refusal::NoSession, self);
        }
        let Entry::Closed = self.sessions[session].entry else {
            return Handed::refused(Refusal::UnfitSession, self);
        };
        let state = self.bind(session, Entry::Open);
        Handed {
            outcome: Ok(()),
            state,
        }
    }

    // Succeeds from any entry.
    pub fn close(self, session: usize) -> Handed<()>
        ensures { moved_to result ≡ closed self session }
    {
        if SESSIONS <= session {
            return Handed::refused(Refusal::NoSession, self);
        }
        let state = self.bind(session, Entry::Closed);
        Handed {
            outcome: Ok(()),
            state,
        }
    }
}
