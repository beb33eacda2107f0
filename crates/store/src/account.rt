// The test of one account. A call makes it once.
ghost use Rattle.std.specs.Prelude.{◌≡◌, ◌<◌, ◌≤◌, ◌+◌, length, ◌||◌};
ghost use Rattle.octets.specs.Stretch.{every};
ghost use Rattle.octets.specs.Rows.{rows_from};
ghost use Rattle.records.specs.Layout.{record_size, places, part_size, id_of};
ghost use Rattle.records.specs.Record.{record_ok};
ghost use Rattle.records.specs.Book.{book_record_size};
ghost use Rattle.store.specs.Places.{records, record_at};
ghost use Rattle.store.specs.Account.{other_id, apart, account_ok};
ghost use Rattle.store.specs.Search.{is_empty};

use crate::places;
use records::{book, layout, record};

fn are_records_ok(part: &[u8], last: u32) -> bool
    requires { length part.now ≡ part_size }
    ensures { result ≡ every (record_ok last) (records part.now) }
{
    let mut ok = true;
    for k in 0..layout::PLACES {
        ok &= record::is_record_ok(last, places::record_at(part, k));
    }
    ok
}

fn is_other_id(id: u32, r: &[u8]) -> bool
    requires { length r.now ≡ record_size }
    ensures { result ≡ other_id id r.now }
{
    (r[layout::STATE] == 0) | !(octets::number::number_at(r, layout::ID) == id)
}

// Whether no record from place k on has the id.
fn is_free_from(part: &[u8], k: usize, id: u32) -> bool
    requires { (length part.now ≡ part_size) × (k ≤ places) }
    ensures { result ≡ every (other_id id) (rows_from record_size places k part.now) }
{
    let mut free = true;
    for j in k..layout::PLACES {
        free &= is_other_id(id, places::record_at(part, j));
    }
    free
}

// Whether the record at place k is empty, or no record behind it has its id.
fn is_apart(part: &[u8], k: usize) -> bool
    requires { (length part.now ≡ part_size) × (k < places) }
    ensures { result ≡ (is_empty (record_at k part.now) || every (other_id (id_of (record_at k part.now))) (rows_from record_size places (k + 1) part.now)) }
{
    let r = places::record_at(part, k);
    if r[layout::STATE] == 0 {
        true
    } else {
        is_free_from(part, k + 1, octets::number::number_at(r, layout::ID))
    }
}

fn are_ids_apart(part: &[u8]) -> bool
    requires { length part.now ≡ part_size }
    ensures { result ≡ apart (records part.now) }
{
    let mut ok = true;
    for k in 0..layout::PLACES {
        ok &= is_apart(part, k);
    }
    ok
}

pub fn is_account_ok(book: &[u8], last: u32, part: &[u8]) -> bool
    requires { (length book.now ≡ book_record_size) × (length part.now ≡ part_size) }
    ensures { result ≡ account_ok book.now last part.now }
{
    book::is_used_ok(book) & (are_records_ok(part, last) & are_ids_apart(part))
}
