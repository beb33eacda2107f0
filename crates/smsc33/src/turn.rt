// One record taken: what the centre makes of it, and the line that tells it.
ghost use Rattle.std.specs.Prelude.{◌≡◌, ℕ, ◌≤◌, List, length};
ghost use Rattle.isolation.specs.Platform.{Step};
ghost use Rattle.answers.specs.Answer.{Call, Question};
ghost use Rattle.answers.specs.Reply.{space_needed};
ghost use Rattle.centre.specs.Centre.{step, world};
ghost use Rattle.lines.specs.Line.{line, line_room};
ghost use Rattle.lines.specs.Record.{record_size, outcome_of, account_of};
ghost use Rattle.smsc33.specs.Turn.{told, turned, answered, stopped, turn_of, zero_space, Fits};

use answers::reply;
use lines::record::Order;
use lines::{record, text};
use session::{State, refusal};
use std::ops::ControlFlow;

// The line is the first `length` octets of the text. After a break no more is read.
#[derive(Clone, Copy)]
pub struct Turned {
    pub length: usize,
    pub flow: ControlFlow<State, State>,
}

// An answer's line, and the next record to be read.
fn told(number: u8, consumed: usize, reply: &[u8], state: State, text: &mut [u8]) -> Turned
    requires { (length reply.now ≤ space_needed) × (length text.old ≡ line_room) }
    ensures { ((table : List ℕ) → turned result table text.new ≡ told (line number consumed reply.now) (world state table)) × Fits result text.new }
{
    let length = text::put_line(text, number, consumed, reply);
    Turned {
        length,
        flow: ControlFlow::Continue(state),
    }
}

fn take(
    book: &[u8],
    table: &mut [u8],
    state: State,
    session: usize,
    octets: &[u8],
    stamp: &[u8],
    text: &mut [u8],
) -> Turned
    requires { length text.old ≡ line_room }
    ensures { (turned result table.new text.new ≡ answered (step book.now (world state table.old) (Step.on session (Call.taking (record { octets = octets.entry.now; stamp = stamp.now; space = zero_space }))))) × Fits result text.new }
{
    let mut space = [0u8; reply::SPACE_NEEDED];
    let took = centre::take::take(book, table, state, session, octets, stamp, &mut space);
    match took.outcome {
        Ok(taken) => {
            let reply = octets::stretch::first(&space, taken.written);
            told(0, taken.consumed, reply, took.state, text)
        }
        Err(refusal) => told(u8::from(refusal), 0, b"", took.state, text),
    }
}

fn outcome(book: &[u8], table: &mut [u8], state: State, asked: &[u8], text: &mut [u8]) -> Turned
    requires { (length asked.now ≡ record_size) × (length text.old ≡ line_room) }
    ensures { (turned result table.new text.new ≡ answered (step book.now (world state table.old) (Step.of (account_of asked.now) (Question.outcome (outcome_of asked.now))))) × Fits result text.new }
{
    let id = octets::number::number_at(asked, 21);
    let outcome = centre::operations::outcome(
        book,
        table,
        state,
        &asked[4..20],
        usize::from(asked[20]),
        id,
        asked[25],
        asked[26],
    );
    told(refusal::number_of(outcome), 0, b"", state, text)
}

fn stop(state: State, text: &mut [u8]) -> Turned
    requires { length text.old ≡ line_room }
    ensures { ((table : List ℕ) → turned result table text.new ≡ stopped (world state table)) × Fits result text.new }
{
    let said = b"bad record\n";
    octets::stretch::put(text, 0, said);
    Turned {
        length: said.len(),
        flow: ControlFlow::Break(state),
    }
}

pub fn turn(book: &[u8], table: &mut [u8], state: State, asked: &[u8], text: &mut [u8]) -> Turned
    requires { length text.old ≡ line_room }
    ensures { (turned result table.new text.new ≡ turn_of book.now (world state table.old) asked.now) × Fits result text.new }
{
    match record::order_of(asked) {
        Some(Order::Open) => {
            let opened = state.open(usize::from(asked[1]));
            let number = refusal::number_of(opened.outcome);
            told(number, 0, b"", opened.state, text)
        }
        Some(Order::Octets) => {
            let end = 20 + record::length_of(asked);
            take(
                book,
                table,
                state,
                usize::from(asked[1]),
                &asked[20..end],
                &asked[4..20],
                text,
            )
        }
        Some(Order::Close) => {
            let closed = state.close(usize::from(asked[1]));
            let number = refusal::number_of(closed.outcome);
            told(number, 0, b"", closed.state, text)
        }
        Some(Order::Outcome) => outcome(book, table, state, asked, text),
        None => stop(state, text),
    }
}
