// The centre for C: include/inverook.h tells a caller what each function is given and gives. A slice is passed as pointer and length,
// and an answer is numbers, so that each call is a function of its own and a refusal no `Result`.
#![tactic(auto)]

mod flat;

ghost use Rattle.std.specs.Prelude.{◌≡◌, ℕ, List};
ghost use Rattle.isolation.specs.Platform.{Step};
ghost use Rattle.session.specs.Refusal.{outcome_number};
ghost use Rattle.centre.specs.Centre.{step, world, takes, delivers, reports};
ghost use Rattle.answers.specs.Reply.{wrote};
ghost use Rattle.answers.specs.Answer.{Call, Question, number_of, picked_record};
ghost use Rattle.inverook.specs.Flat.{state_of, flat_of};
ghost use Rattle.inverook.specs.Calls.{moved, taken, delivered, flatly, picked_at, copied_to};

use centre::operations;
use centre::take::Taken;
use flat::InverookState;
use records::layout;
use session::{Handed, State, refusal};

// inverook_moved of the header.
#[repr(C)]
#[derive(Clone, Copy)]
pub struct InverookMoved {
    pub number: u8,
    pub state: InverookState,
}

impl From<Handed<()>> for InverookMoved {
    ghost from_gives = { λ h given. given ≡ record { number = outcome_number h.outcome; state = flat_of h.state } };

    fn from(handed: Handed<()>) -> InverookMoved {
        InverookMoved {
            number: refusal::number_of(handed.outcome),
            state: InverookState::from(handed.state),
        }
    }
}

// inverook_taken of the header.
#[repr(C)]
#[derive(Clone, Copy)]
pub struct InverookTaken {
    pub number: u8,
    pub consumed: usize,
    pub written: usize,
    pub state: InverookState,
}

impl From<Handed<Taken>> for InverookTaken {
    ghost from_gives = { λ h given. (table space : List ℕ) → taken given table space ≡ flatly (takes h table space) };

    fn from(handed: Handed<Taken>) -> InverookTaken {
        let state = InverookState::from(handed.state);
        match handed.outcome {
            Ok(taken) => InverookTaken {
                number: 0,
                consumed: taken.consumed,
                written: taken.written,
                state,
            },
            Err(refusal) => InverookTaken {
                number: u8::from(refusal),
                consumed: 0,
                written: 0,
                state,
            },
        }
    }
}

// inverook_delivered of the header.
#[repr(C)]
#[derive(Clone, Copy)]
pub struct InverookDelivered {
    pub number: u8,
    pub written: usize,
    pub state: InverookState,
}

impl From<Handed<usize>> for InverookDelivered {
    ghost from_gives = { λ h given. (table space : List ℕ) → delivered given table space ≡ flatly (delivers h table space) };

    fn from(gave: Handed<usize>) -> InverookDelivered {
        InverookDelivered {
            number: refusal::number_of(gave.outcome),
            written: gave.outcome.unwrap_or(0),
            state: InverookState::from(gave.state),
        }
    }
}

#[unsafe(no_mangle)]
pub extern "C" fn inverook_open(state: InverookState, session: usize) -> InverookMoved
    ensures { (book table : List ℕ) → moved result table ≡ flatly (step book (world (state_of state) table) (Step.opens session)) }
{
    InverookMoved::from(State::from(state).open(session))
}

#[unsafe(no_mangle)]
pub extern "C" fn inverook_close(state: InverookState, session: usize) -> InverookMoved
    ensures { (book table : List ℕ) → moved result table ≡ flatly (step book (world (state_of state) table) (Step.closes session)) }
{
    InverookMoved::from(State::from(state).close(session))
}

#[unsafe(no_mangle)]
pub extern "C" fn inverook_take(
    book: &[u8],
    table: &mut [u8],
    state: InverookState,
    session: usize,
    octets: &[u8],
    stamp: &[u8],
    space: &mut [u8],
) -> InverookTaken
    ensures { taken result table.new space.new ≡ flatly (step book.now (world (state_of state) table.old) (Step.on session (Call.taking (record { octets = octets.entry.now; stamp = stamp.now; space = space.old })))) }
{
    let state = State::from(state);
    let took = centre::take::take(book, table, state, session, octets, stamp, space);
    InverookTaken::from(took)
}

#[unsafe(no_mangle)]
pub extern "C" fn inverook_deliver(
    book: &[u8],
    table: &[u8],
    state: InverookState,
    session: usize,
    sequence: u32,
    space: &mut [u8],
) -> InverookDelivered
    ensures { delivered result table.now space.new ≡ flatly (step book.now (world (state_of state) table.now) (Step.on session (Call.delivering (record { sequence = sequence; space = space.old })))) }
{
    let gave = centre::deliver::deliver(book, table, State::from(state), session, sequence, space);
    InverookDelivered::from(gave)
}

#[unsafe(no_mangle)]
pub extern "C" fn inverook_outcome(
    book: &[u8],
    table: &mut [u8],
    state: InverookState,
    stamp: &[u8],
    account: usize,
    id: u32,
    outcome: u8,
    error: u8,
) -> u8
    ensures { reports result (state_of state) table.new ≡ step book.now (world (state_of state) table.old) (Step.of account (Question.outcome (record { stamp = stamp.entry.now; id = id; state = outcome; error = error }))) }
{
    let state = State::from(state);
    let told = operations::outcome(book, table, state, stamp, account, id, outcome, error);
    refusal::number_of(told)
}

#[unsafe(no_mangle)]
pub extern "C" fn inverook_pick_number(
    book: &[u8],
    table: &[u8],
    state: InverookState,
    account: usize,
) -> u8
    ensures { result ≡ number_of (step book.now (world (state_of state) table.now) (Step.of account Question.pick)).answer }
{
    operations::pick_number(book, table, State::from(state), account)
}

// Where no record is picked: one past the table's last octet.
const NOWHERE: usize = layout::TABLE_SIZE;

// A C caller cannot be handed a part of its own table: it gets the octet at which that part starts.
#[unsafe(no_mangle)]
pub extern "C" fn inverook_pick_at(
    book: &[u8],
    table: &[u8],
    state: InverookState,
    account: usize,
) -> usize
    ensures { result ≡ picked_at account (step book.now (world (state_of state) table.now) (Step.of account Question.pick)).answer }
{
    match operations::locate(book, table, State::from(state), account) {
        Ok(k) => operations::start_of(account, k),
        Err(_) => NOWHERE,
    }
}

// Or the record's octets, for a caller that keeps its table elsewhere: as many as were copied, none where the space is too short.
#[unsafe(no_mangle)]
pub extern "C" fn inverook_pick_record(
    book: &[u8],
    table: &[u8],
    state: InverookState,
    account: usize,
    space: &mut [u8],
) -> usize
    ensures { wrote result space.new ≡ copied_to (picked_record (step book.now (world (state_of state) table.now) (Step.of account Question.pick)).answer) space.old }
{
    let picked = operations::pick(book, table, State::from(state), account);
    if space.len() < picked.len() {
        return 0;
    }
    octets::stretch::put(space, 0, picked);
    picked.len()
}
