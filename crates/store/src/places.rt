// The sixteen places of an account's part.
ghost use Rattle.std.specs.Prelude.{◌≡◌, ◌<◌, length};
ghost use Rattle.octets.specs.Lent.{lent};
ghost use Rattle.records.specs.Layout.{record_size, places, part_size, id_of};
ghost use Rattle.store.specs.Search.{waiting};
ghost use Rattle.store.specs.Places.{record_at, record_part};

use records::layout;

// The best of a search so far: a record that passes, by its place, and how it ranks. A search begins with none.
#[derive(Clone, Copy)]
pub struct Best {
    pub rank: u64,
    pub place: usize,
}

// The record at place k, in the part itself.
pub fn record_at(part: &[u8], k: usize) -> &[u8]
    requires { (length part.now ≡ part_size) × (k < places) }
    ensures { (lent result ≡ record_part k (lent part.entry)) × (length result.now ≡ record_size) }
{
    let at = layout::RECORD_SIZE * k;
    &part[at..at + layout::RECORD_SIZE]
}

pub fn id_at(part: &[u8], k: usize) -> u32
    requires { (length part.now ≡ part_size) × (k < places) }
    ensures { result ≡ id_of (record_at k part.now) }
{
    let r = record_at(part, k);
    octets::number::number_at(r, layout::ID)
}

pub fn is_waiting_at(part: &[u8], k: usize) -> bool
    requires { (length part.now ≡ part_size) × (k < places) }
    ensures { result ≡ waiting (record_at k part.now) }
{
    let r = record_at(part, k);
    r[layout::STATE] == 1
}
