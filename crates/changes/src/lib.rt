// What is written into records: a new one, a final state with its mark, a mark taken away, a new text, a correction.
#![tactic(auto)]

ghost use Rattle.std.specs.Prelude.{◌≡◌, ◌+◌, ◌≤◌, ◌<◌, ℕ, List, [], ◌∷◌, length};
ghost use Rattle.octets.specs.Stretch.{patch};
ghost use Rattle.forms.specs.Text.{longest_text};
ghost use Rattle.forms.specs.Time.{time_length};
ghost use Rattle.records.specs.Layout.{record_size, places, part_size};
ghost use Rattle.store.specs.Places.{on_place};
ghost use Rattle.changes.specs.Change.{head, terms, message, new_record, finished, unmarked, retexted, retimed, corrected};

use forms::{field, time};
use records::layout;

// A submission's fields; its service_type and text stand beside it.
#[derive(Clone, Copy)]
pub struct Fields {
    pub source: [u8; field::ADDRESS_SIZE],
    pub destination: [u8; field::ADDRESS_SIZE],
    pub esm: u8,
    pub protocol: u8,
    pub priority: u8,
    pub schedule: [u8; time::LENGTH],
    pub validity: [u8; time::LENGTH],
    pub registered: u8,
    pub coding: u8,
    pub default: u8,
}

fn put_octet(r: &mut [u8], at: usize, x: u8)
    requires { at < length r.old }
    ensures { r.new ≡ patch r.old at (x ∷ []) }
{
    r[at] = x;
}

// Octets 0 to 53: waiting, the id, both addresses, service_type.
fn put_head(
    r: &mut [u8],
    id: u32,
    source: &[u8; field::ADDRESS_SIZE],
    destination: &[u8; field::ADDRESS_SIZE],
    service: &[u8],
)
    requires { (length r.old ≡ record_size) × (length service.now ≤ 5) }
    ensures { (r.new ≡ patch r.old 0 (head id source.now destination.now service.now)) × (length (head id source.now destination.now service.now) ≡ 49 + length service.now) }
{
    put_octet(r, layout::STATE, 1);
    octets::number::put_number(r, layout::ID, id);
    octets::stretch::put(r, layout::SOURCE, source);
    octets::stretch::put(r, layout::DESTINATION, destination);
    octets::stretch::put(r, layout::SERVICE_TYPE, service);
}

// Octets 54 to 88: esm_class, protocol id and priority, both times.
fn put_terms(
    r: &mut [u8],
    flags: &[u8; 3],
    schedule: &[u8; time::LENGTH],
    validity: &[u8; time::LENGTH],
)
    requires { length r.old ≡ record_size }
    ensures { (r.new ≡ patch r.old 54 (terms flags.now schedule.now validity.now)) × (length (terms flags.now schedule.now validity.now) ≡ 35) }
{
    octets::stretch::put(r, layout::ESM_CLASS, flags);
    octets::stretch::put(r, layout::SCHEDULE, schedule);
    octets::stretch::put(r, layout::VALIDITY, validity);
}

// Octets 89 to 232: registered flag, data coding and default message id, length and text.
fn put_message(r: &mut [u8], flags: &[u8; 3], text: &[u8])
    requires { (length r.old ≡ record_size) × (length text.now ≤ longest_text) }
    ensures { (r.new ≡ patch r.old 89 (message flags.now text.now)) × (length flags.now ≡ 3) }
{
    octets::stretch::put(r, layout::REGISTERED, flags);
    put_octet(r, layout::LENGTH, text.len() as u8);
    octets::stretch::put(r, layout::TEXT, text);
}

// Puts a new record over whatever stands at place k.
pub fn put_new(part: &mut [u8], k: usize, id: u32, f: Fields, service: &[u8], text: &[u8])
    requires { ((length part.old ≡ part_size) × (k < places)) × ((length service.now ≤ 5) × (length text.now ≤ longest_text)) }
    ensures { part.new ≡ on_place (λ r. new_record id f service.now text.now) k part.old }
{
    let source = f.source;
    let destination = f.destination;
    let schedule = f.schedule;
    let validity = f.validity;
    let before_times = [f.esm, f.protocol, f.priority];
    let behind_times = [f.registered, f.coding, f.default];
    let mut record = [0u8; layout::RECORD_SIZE];
    put_head(&mut record, id, &source, &destination, service);
    put_terms(&mut record, &before_times, &schedule, &validity);
    put_message(&mut record, &behind_times, text);
    octets::stretch::put(part, layout::RECORD_SIZE * k, &record);
}

// Changes the record at place k, in the part itself.
fn change_at<F: FnOnce(&mut [u8])>(part: &mut [u8], k: usize, change: F)
    requires place { (length part.old ≡ part_size) × (k < places) }
    requires change { (r : _) → length r.now ≡ record_size → F.pre change r }
    ensures { (f : List ℕ → List ℕ)
        → ((r : _) (back : _) → length r.now ≡ record_size → F.post change r tt back → back.now ≡ f r.now)
        → part.new ≡ on_place f k part.old }
{
    let at = layout::RECORD_SIZE * k;
    change(&mut part[at..at + layout::RECORD_SIZE])
}

fn finish_record(r: &mut [u8], state: u8, error: u8, stamp: &[u8])
    requires { (length r.old ≡ record_size) × (length stamp.now ≡ time_length) }
    ensures { r.new ≡ finished state error stamp.now r.old }
{
    let registered = r[layout::REGISTERED];
    put_octet(r, layout::STATE, state);
    octets::stretch::put(r, layout::FINAL_DATE, stamp);
    put_octet(r, layout::ERROR_CODE, error);
    put_octet(r, layout::MARK, registered);
}

// Gives the record at place k a final state.
pub fn finish(part: &mut [u8], k: usize, state: u8, error: u8, stamp: &[u8])
    requires { ((length part.old ≡ part_size) × (k < places)) × (length stamp.now ≡ time_length) }
    ensures { part.new ≡ on_place (finished state error stamp.now) k part.old }
{
    change_at(part, k, |r| finish_record(r, state, error, stamp))
}

// Takes the mark from the record at place k.
pub fn unmark(part: &mut [u8], k: usize)
    requires { (length part.old ≡ part_size) × (k < places) }
    ensures { part.new ≡ on_place unmarked k part.old }
{
    change_at(part, k, |r| put_octet(r, layout::MARK, 0))
}

// No old octets stay behind a shorter text.
fn retext_record(r: &mut [u8], default: u8, text: &[u8])
    requires { (length r.old ≡ record_size) × (length text.now ≤ longest_text) }
    ensures { r.new ≡ retexted default text.now r.old }
{
    let sizes = [default, text.len() as u8];
    let mut whole = [0u8; layout::FINAL_DATE - layout::TEXT];
    octets::stretch::put(&mut whole, 0, text);
    octets::stretch::put(r, layout::DEFAULT_ID, &sizes);
    octets::stretch::put(r, layout::TEXT, &whole);
}

// Gives the record at place k a new text.
pub fn retext(part: &mut [u8], k: usize, default: u8, text: &[u8])
    requires { ((length part.old ≡ part_size) × (k < places)) × (length text.now ≤ longest_text) }
    ensures { part.new ≡ on_place (retexted default text.now) k part.old }
{
    change_at(part, k, |r| retext_record(r, default, text))
}

fn retime(r: &mut [u8], at: usize, time: &[u8; time::LENGTH])
    requires { at + time_length ≤ length r.old }
    ensures { r.new ≡ retimed at time.now r.old }
{
    if !octets::stretch::all_zero(time) {
        octets::stretch::put(r, at, time);
    }
}

// A correction: what replace_sm brings.
#[derive(Clone, Copy)]
pub struct Correction {
    pub schedule: [u8; time::LENGTH],
    pub validity: [u8; time::LENGTH],
    pub registered: u8,
    pub default: u8,
}

fn correct_record(r: &mut [u8], c: Correction, text: &[u8])
    requires { (length r.old ≡ record_size) × (length text.now ≤ longest_text) }
    ensures { r.new ≡ corrected c text.now r.old }
{
    let schedule = c.schedule;
    let validity = c.validity;
    retime(r, layout::SCHEDULE, &schedule);
    retime(r, layout::VALIDITY, &validity);
    put_octet(r, layout::REGISTERED, c.registered);
    retext_record(r, c.default, text);
}

// Corrects the record at place k.
pub fn correct(part: &mut [u8], k: usize, c: Correction, text: &[u8])
    requires { ((length part.old ≡ part_size) × (k < places)) × (length text.now ≤ longest_text) }
    ensures { part.new ≡ on_place (corrected c text.now) k part.old }
{
    change_at(part, k, |r| correct_record(r, c, text))
}
