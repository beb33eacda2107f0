// What a response makes of the receipt that is outstanding on its session.
ghost use Rattle.std.specs.Prelude.{◌≡◌, length};
ghost use Rattle.records.specs.Layout.{part_size};
ghost use Rattle.receipts.specs.Settle.{acknowledged, settled, settling};

use session::Receipt;
use wire::frame::Header;

const DELIVER_SM_RESPONSE: u32 = 0x8000_0005;

fn acknowledge(part: &mut [u8], id: u32)
    requires { length part.old ≡ part_size }
    ensures { part.new ≡ acknowledged id part.old }
{
    if let Some(k) = store::search::find_id(part, id) {
        changes::unmark(part, k);
    }
}

// The session's receipt afterwards.
pub fn settle(part: &mut [u8], header: Header, receipt: Option<Receipt>) -> Option<Receipt>
    requires { length part.old ≡ part_size }
    ensures { settling result part.new ≡ settled header receipt part.old }
{
    let Some(outstanding) = receipt else {
        return receipt;
    };
    if (header.command == DELIVER_SM_RESPONSE) & (header.sequence == outstanding.sequence) {
        if header.status == 0 {
            acknowledge(part, outstanding.id);
        }
        None
    } else {
        receipt
    }
}
