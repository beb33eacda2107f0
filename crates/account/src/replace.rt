// replace_sm.
ghost use Rattle.std.specs.Prelude.{◌≡◌, ◌&&◌, ◌<◌, length};
ghost use Rattle.requests.specs.Replace.{ReplaceInside};
ghost use Rattle.wire.specs.Status.{outcome_status};
ghost use Rattle.records.specs.Layout.{places, part_size, source_of};
ghost use Rattle.records.specs.Book.{book_record_size, same_address};
ghost use Rattle.store.specs.Places.{record_at};
ghost use Rattle.store.specs.Search.{waiting};
ghost use Rattle.account.specs.Cancel.{changed};
ghost use Rattle.account.specs.Replace.{replaced_in, replaced};

use changes::Correction;
use forms::field;
use records::layout;
use requests::replace::Replace;
use wire::fields;
use wire::status::Status;

fn is_replaceable(part: &[u8], k: usize, source: &[u8; field::ADDRESS_SIZE]) -> bool
    requires { (length part.now ≡ part_size) × (k < places) }
    ensures { result ≡ (same_address (source_of (record_at k part.now)) source.now && waiting (record_at k part.now)) }
{
    let r = store::places::record_at(part, k);
    records::book::is_same_address(&r[layout::SOURCE..layout::DESTINATION], source)
        & (r[layout::STATE] == 1)
}

fn replace_in(
    part: &mut [u8],
    source: &[u8; field::ADDRESS_SIZE],
    r: Replace,
    body: &[u8],
) -> Result<(), Status>
    requires { (length part.old ≡ part_size) × ReplaceInside r body.now }
    ensures { changed (outcome_status result) part.new ≡ replaced_in source.now r body.now part.old }
{
    let Some(k) = source::find_known(part, r.id) else {
        return Err(Status::InvalidMessageId);
    };
    if !is_replaceable(part, k, source) {
        return Err(Status::CannotReplace);
    }
    let schedule = r.schedule.octets;
    let validity = r.validity.octets;
    let correction = Correction {
        schedule,
        validity,
        registered: r.registered,
        default: r.default,
    };
    changes::correct(part, k, correction, fields::octets_of(body, r.text));
    Ok(())
}

pub fn replace(book: &[u8], part: &mut [u8], body: &[u8]) -> Result<(), Status>
    requires { (length book.now ≡ book_record_size) × (length part.old ≡ part_size) }
    ensures { changed (outcome_status result) part.new ≡ replaced book.now body.now part.old }
{
    let r = requests::replace::read_replace(body)?;
    let source = source::source_for(book, r.source);
    replace_in(part, &source.octets, r, body)
}
