// The searches over the sixteen places. They compare in the part and copy no record out.
ghost use Rattle.std.specs.Prelude.{◌≡◌, ◌*◌, ◌&&◌, ◌<◌, ℕ, Bool, List, length};
ghost use Rattle.octets.specs.Stretch.{among};
ghost use Rattle.octets.specs.Rows.{rows};
ghost use Rattle.records.specs.Layout.{record_size, places, part_size, account_count, id_of};
ghost use Rattle.store.specs.Places.{record_at, Below, OnePlace, Tells, lowest};
ghost use Rattle.records.specs.Book.{book_record_size, book_size};
ghost use Rattle.store.specs.Search.{is_empty, waiting, between, overwritable, has_id, turn, place_of, pair_place, empty_place, finished_place, new_place, next_place, owed, owed_place, named_place};

use crate::places;
use crate::places::Best;
use records::{book, layout};

// Of records of one size, one behind the other, the place of the one that ranks lowest among those that pass, the first of equals.
fn lowest<P: Fn(&[u8]) -> bool, R: Fn(&[u8]) -> u64>(
    records: &[u8],
    size: usize,
    passes: P,
    rank: R,
) -> Option<usize>
    requires some { 0 < size }
    requires tests { (r : _) → length r.now ≡ size → P.pre passes r }
    requires ranks { (r : _) → length r.now ≡ size → R.pre rank r }
    ensures { (count : ℕ) (p : List ℕ → Bool) (n : List ℕ → ℕ)
        → length records.now ≡ size * count → Tells size (P.post passes) p → Tells size (R.post rank) n
        → (result ≡ lowest p n (rows size count records.now)) × Below count result }
{
    let mut best: Option<Best> = None;
    for (place, r) in records.chunks_exact(size).enumerate() {
        let rank = rank(r);
        if passes(r) & best.is_none_or(|b| rank < b.rank) {
            best = Some(Best { rank, place });
        }
    }
    best.map(|b| b.place)
}

fn id_of(r: &[u8]) -> u64
    requires { length r.now ≡ record_size }
    ensures { result ≡ id_of r.now }
{
    octets::number::number_at(r, layout::ID) as u64
}

fn has_id(r: &[u8], id: u32) -> bool
    requires { length r.now ≡ record_size }
    ensures { result ≡ has_id id r.now }
{
    !(r[layout::STATE] == 0) & (octets::number::number_at(r, layout::ID) == id)
}

pub fn find_id(part: &[u8], id: u32) -> Option<usize>
    requires { length part.now ≡ part_size }
    ensures { (result ≡ place_of id part.now) × OnePlace result }
{
    lowest(part, layout::RECORD_SIZE, |r| has_id(r, id), id_of)
}

fn is_waiting(r: &[u8]) -> bool
    requires { length r.now ≡ record_size }
    ensures { result ≡ waiting r.now }
{
    r[layout::STATE] == 1
}

fn is_pair(r: &[u8], source: &[u8], destination: &[u8]) -> bool
    requires { length r.now ≡ record_size }
    ensures { result ≡ (waiting r.now && between source.now destination.now r.now) }
{
    is_waiting(r)
        && book::is_same_address(&r[layout::SOURCE..layout::DESTINATION], source)
        && book::is_same_address(&r[layout::DESTINATION..layout::SERVICE_TYPE], destination)
}

// The same of the record at place k.
pub fn is_pair_at(part: &[u8], k: usize, source: &[u8], destination: &[u8]) -> bool
    requires { (length part.now ≡ part_size) × (k < places) }
    ensures { result ≡ (waiting (record_at k part.now) && between source.now destination.now (record_at k part.now)) }
{
    is_pair(places::record_at(part, k), source, destination)
}

pub fn find_pair(part: &[u8], source: &[u8], destination: &[u8]) -> Option<usize>
    requires { length part.now ≡ part_size }
    ensures { (result ≡ pair_place source.now destination.now part.now) × OnePlace result }
{
    lowest(
        part,
        layout::RECORD_SIZE,
        |r| is_pair(r, source, destination),
        id_of,
    )
}

fn is_empty(r: &[u8]) -> bool
    requires { length r.now ≡ record_size }
    ensures { result ≡ is_empty r.now }
{
    r[layout::STATE] == 0
}

fn find_empty(part: &[u8]) -> Option<usize>
    requires { length part.now ≡ part_size }
    ensures { (result ≡ empty_place part.now) × OnePlace result }
{
    lowest(part, layout::RECORD_SIZE, is_empty, |_| 0)
}

fn is_overwritable(r: &[u8]) -> bool
    requires { length r.now ≡ record_size }
    ensures { result ≡ overwritable r.now }
{
    let state = r[layout::STATE];
    (2 <= state) & (state <= 5) & !(r[layout::MARK] == 1)
}

fn find_finished(part: &[u8]) -> Option<usize>
    requires { length part.now ≡ part_size }
    ensures { (result ≡ finished_place part.now) × OnePlace result }
{
    lowest(part, layout::RECORD_SIZE, is_overwritable, id_of)
}

// The place for a new record.
pub fn find_new(part: &[u8]) -> Option<usize>
    requires { length part.now ≡ part_size }
    ensures { (result ≡ new_place part.now) × OnePlace result }
{
    find_empty(part).or_else(|| find_finished(part))
}

fn turn_of(r: &[u8]) -> u64
    requires { length r.now ≡ record_size }
    ensures { result ≡ turn r.now }
{
    let id = octets::number::number_at(r, layout::ID) as u64;
    if r[layout::PRIORITY] == 1 {
        id
    } else {
        id + 4294967296
    }
}

// The next message to send.
pub fn find_next(part: &[u8]) -> Option<usize>
    requires { length part.now ≡ part_size }
    ensures { (result ≡ next_place part.now) × OnePlace result }
{
    lowest(part, layout::RECORD_SIZE, is_waiting, turn_of)
}

fn is_owed(r: &[u8], ids: &[u32]) -> bool
    requires { length r.now ≡ record_size }
    ensures { result ≡ owed ids.now r.now }
{
    let id = octets::number::number_at(r, layout::ID);
    (r[layout::MARK] == 1) && !ids.contains(&id)
}

// The next receipt to write: none whose id is one of these.
pub fn find_owed(part: &[u8], ids: &[u32]) -> Option<usize>
    requires { length part.now ≡ part_size }
    ensures { (result ≡ owed_place ids.now part.now) × OnePlace result }
{
    lowest(part, layout::RECORD_SIZE, |r| is_owed(r, ids), id_of)
}

// The account that a bind names.
pub fn find_named(book: &[u8], system: &[u8], kind: &[u8]) -> Option<usize>
    requires { length book.now ≡ book_size }
    ensures { (result ≡ named_place system.now kind.now book.now) × Below account_count result }
{
    lowest(
        book,
        book::RECORD_SIZE,
        |b| book::is_named(b, system, kind),
        |_| 0,
    )
}
