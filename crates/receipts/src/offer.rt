// The receipt that a session of an account is given on request.
ghost use Rattle.std.specs.Prelude.{◌≡◌, ◌≤◌, length};
ghost use Rattle.records.specs.Layout.{part_size};
ghost use Rattle.records.specs.Book.{book_record_size};
ghost use Rattle.receipts.specs.DeliverSm.{longest_delivery};
ghost use Rattle.receipts.specs.Offer.{offered, offers};

use crate::deliver_sm;
use session::Receipt;
use session::refusal::Refusal;

// How many octets were written for a receipt, and the receipt, outstanding from now on.
#[derive(Clone, Copy)]
pub struct Offer {
    pub written: usize,
    pub receipt: Receipt,
}

// The account is tested once; then 12, 13, or the receipt for the lowest id owed that is none of `ids`.
pub fn offer_receipt(
    receiver: bool,
    book: &[u8],
    last: u32,
    part: &[u8],
    ids: &[u32],
    receipt: Option<Receipt>,
    sequence: u32,
    space: &mut [u8],
) -> Result<Offer, Refusal>
    requires { ((length book.now ≡ book_record_size) × (length part.now ≡ part_size)) × (longest_delivery ≤ length space.old) }
    ensures { offers receipt result space.new ≡ offered receiver book.now last part.now ids.now receipt (record { sequence = sequence; space = space.old }) }
{
    if !store::account::is_account_ok(book, last, part) {
        return Err(Refusal::AccountIllFormed);
    }
    if !receiver | receipt.is_some() {
        return Err(Refusal::NoReceiver);
    }
    let Some(k) = store::search::find_owed(part, ids) else {
        return Err(Refusal::NothingOwed);
    };
    let r = store::places::record_at(part, k);
    let written = deliver_sm::write(space, sequence, r);
    let id = octets::number::number_at(r, records::layout::ID);
    Ok(Offer {
        written,
        receipt: Receipt { id, sequence },
    })
}
