// Reporting an outcome and picking the next message to send.
ghost use Rattle.std.specs.Prelude.{◌≡◌, ◌<◌, length, OnOk};
ghost use Rattle.octets.specs.Lent.{lent};
ghost use Rattle.forms.specs.Time.{time_length};
ghost use Rattle.records.specs.Book.{book_record_size};
ghost use Rattle.records.specs.Layout.{places, part_size};
ghost use Rattle.session.specs.Refusal.{outcome_number};
ghost use Rattle.session.specs.State.{account_count};
ghost use Rattle.isolation.specs.Platform.{Step, part_of};
ghost use Rattle.answers.specs.Answer.{Question, number_of, picked_record};
ghost use Rattle.centre.specs.Operations.{outcome_ok, noting, noted, picked_from};
ghost use Rattle.centre.specs.Centre.{outcome_early, pick_early, step, world, reports};
ghost use Rattle.centre.specs.Pick.{start_of, picked_part, placed, OnePlace, Inside, Stamped, Sized};

use crate::sizes;
use records::layout;
use session::refusal::Refusal;
use session::{State, refusal};

fn check_outcome(book: usize, table: usize, stamp: &[u8]) -> Result<(), Refusal>
    ensures early { outcome_number result ≡ outcome_early book table stamp.now }
    ensures fit { OnOk result (Stamped book table stamp.now) }
{
    if sizes::is_wrong(book, table) {
        return Err(Refusal::WrongSize);
    }
    if !forms::time::is_sent_time(stamp) {
        return Err(Refusal::StampIllFormed);
    }
    Ok(())
}

fn is_outcome(state: u8) -> bool
    ensures { result ≡ outcome_ok state }
{
    (state == 2) | (state == 3) | (state == 5)
}

fn on_outcome(
    book: &[u8],
    part: &mut [u8],
    last: u32,
    stamp: &[u8],
    id: u32,
    state: u8,
    error: u8,
) -> Result<(), Refusal>
    requires { (length book.now ≡ book_record_size) × ((length part.old ≡ part_size) × (length stamp.now ≡ time_length)) }
    ensures { noting (outcome_number result) part.new ≡ noted book.now (record { stamp = stamp.entry.now; id = id; state = state; error = error }) last part.old }
{
    if !is_outcome(state) {
        return Err(Refusal::NoOutcome);
    }
    if !store::account::is_account_ok(book, last, &part[..]) {
        return Err(Refusal::AccountIllFormed);
    }
    if account::outcome::report(part, stamp, id, state, error) {
        Ok(())
    } else {
        Err(Refusal::NotWaiting)
    }
}

// Stores state, error code and final date of a waiting message. The first number that applies is given: 3, 5, 7, 8, 9, 10.
pub fn outcome(
    book: &[u8],
    table: &mut [u8],
    state: State,
    stamp: &[u8],
    account: usize,
    id: u32,
    outcome: u8,
    error: u8,
) -> Result<(), Refusal>
    ensures { reports (outcome_number result) state table.new ≡ step book.now (world state table.old) (Step.of account (Question.outcome (record { stamp = stamp.entry.now; id = id; state = outcome; error = error }))) }
{
    check_outcome(book.len(), table.len(), stamp)?;
    if layout::ACCOUNTS <= account {
        return Err(Refusal::NoAccount);
    }
    let record = records::book::record_of(book, account);
    let last = state.lasts[account];
    let at = layout::PART_SIZE * account;
    on_outcome(
        record,
        &mut table[at..at + layout::PART_SIZE],
        last,
        stamp,
        id,
        outcome,
        error,
    )
}

fn on_pick(book: &[u8], part: &[u8], last: u32) -> Result<usize, Refusal>
    requires { (length book.now ≡ book_record_size) × (length part.now ≡ part_size) }
    ensures { (placed result part.now ≡ picked_from book.now last part.now) × OnePlace result }
{
    if store::account::is_account_ok(book, last, part) {
        store::search::find_next(part).ok_or(Refusal::NothingWaiting)
    } else {
        Err(Refusal::AccountIllFormed)
    }
}

fn check_pick(book: usize, table: usize) -> Result<(), Refusal>
    ensures early { outcome_number result ≡ pick_early book table }
    ensures fit { OnOk result (Sized book table) }
{
    if sizes::is_wrong(book, table) {
        Err(Refusal::WrongSize)
    } else {
        Ok(())
    }
}

// The account's place that is picked. The account is tested here, once, for the number, the part and the octet that callers make of it.
// Inlined, or each of these callers has the state on its stack twice.
#[inline(always)]
pub fn locate(book: &[u8], table: &[u8], state: State, account: usize) -> Result<usize, Refusal>
    ensures { (placed result (part_of account table.now) ≡ (step book.now (world state table.now) (Step.of account Question.pick)).answer) × Inside result account table.now }
{
    check_pick(book.len(), table.len())?;
    if layout::ACCOUNTS <= account {
        return Err(Refusal::NoAccount);
    }
    let record = records::book::record_of(book, account);
    let last = state.lasts[account];
    let at = layout::PART_SIZE * account;
    on_pick(record, &table[at..at + layout::PART_SIZE], last)
}

// The octet of the table at which a place of an account starts.
pub fn start_of(account: usize, place: usize) -> usize
    requires { (account < account_count) × (place < places) }
    ensures { result ≡ start_of account place }
{
    layout::PART_SIZE * account + layout::RECORD_SIZE * place
}

// Whether there is a message to send: 3, 7, 9, 11, or 0. The number itself is what this call is for (document 01), so it is no `Result`.
pub fn pick_number(book: &[u8], table: &[u8], state: State, account: usize) -> u8
    ensures { result ≡ number_of (step book.now (world state table.now) (Step.of account Question.pick)).answer }
{
    refusal::number_of(locate(book, table, state, account))
}

// The record itself, as part of the table, where the number is 0; else nothing.
pub fn pick<'a>(book: &[u8], table: &'a [u8], state: State, account: usize) -> &'a [u8]
    ensures { (lent result ≡ picked_part account (step book.now (world state table.now) (Step.of account Question.pick)).answer (lent table.entry)) × (result.now ≡ picked_record (step book.now (world state table.now) (Step.of account Question.pick)).answer) }
{
    match locate(book, table, state, account) {
        Err(_) => &table[..0],
        Ok(k) => {
            let at = start_of(account, k);
            &table[at..at + layout::RECORD_SIZE]
        }
    }
}
