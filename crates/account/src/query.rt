// query_sm.
ghost use Rattle.std.specs.Prelude.{◌≡◌, length};
ghost use Rattle.records.specs.Layout.{part_size};
ghost use Rattle.records.specs.Book.{book_record_size};
ghost use Rattle.store.specs.Places.{OnePlace};
ghost use Rattle.account.specs.Query.{looked_up, queried, asked};

use records::layout;
use requests::query::Query;
use wire::status::Status;

fn look_up(book: &[u8], part: &[u8], q: Query) -> Result<usize, Status>
    requires { (length book.now ≡ book_record_size) × (length part.now ≡ part_size) }
    ensures { (asked result ≡ looked_up book.now q part.now) × OnePlace (asked result).place }
{
    let wanted = source::source_for(book, q.source);
    let Some(k) = source::find_known(part, q.id) else {
        return Err(Status::InvalidMessageId);
    };
    let r = store::places::record_at(part, k);
    if records::book::is_same_address(&r[layout::SOURCE..layout::DESTINATION], &wanted.octets) {
        Ok(k)
    } else {
        Err(Status::InvalidMessageId)
    }
}

// The place of the record asked for.
pub fn query(book: &[u8], part: &[u8], body: &[u8]) -> Result<usize, Status>
    requires { (length book.now ≡ book_record_size) × (length part.now ≡ part_size) }
    ensures { (asked result ≡ queried book.now body.now part.now) × OnePlace (asked result).place }
{
    let q = requests::query::read_query(body)?;
    look_up(book, part, q)
}
