// A receipt, written at the front of the lent space; the octets behind it stay as they were.
ghost use Rattle.std.specs.Prelude.{◌≡◌, ◌+◌, ◌≤◌, ◌++◌, length};
ghost use Rattle.octets.specs.Stretch.{patch};
ghost use Rattle.forms.specs.Field.{address_size};
ghost use Rattle.records.specs.Layout.{record_size, state_of};
ghost use Rattle.answers.specs.Reply.{wrote, over};
ghost use Rattle.receipts.specs.DeliverSm.{sent_address, terms, receipt_text, deliver_sm, longest_delivery};

use answers::reply;
use forms::field;
use records::layout;

// The longest deliver_sm: 16 + 1 + 23 + 23 + 10 + 18.
pub const LONGEST: usize = 91;

const DELIVER_SM: u32 = 5;

// Ton, npi, the text and NUL; where the next field starts.
fn put_address(space: &mut [u8], at: usize, address: &[u8]) -> usize
    requires { (length address.now ≡ address_size) × (at + 23 ≤ length space.old) }
    ensures { (result ≡ at + length (sent_address address.now)) × (space.new ≡ patch space.old at (sent_address address.now)) }
{
    let text = field::text_of(octets::stretch::from(address, 2));
    octets::stretch::put(space, at, octets::stretch::first(address, 2));
    octets::stretch::put(space, at + 2, text);
    let end = at + 2 + text.len();
    octets::stretch::put(space, end, b"\0");
    end + 1
}

// The text, with what stands in front of it.
fn put_text(space: &mut [u8], at: usize, id: u32, state: u8)
    requires { (at + 28 ≤ length space.old) × (state ≤ 5) }
    ensures { space.new ≡ patch space.old at (terms ++ receipt_text id state) }
{
    octets::stretch::put(space, at, b"\x04\0\0\0\0\0\0\0\0\x12id:");
    octets::number::put_hex(space, at + 13, id);
    octets::stretch::put(space, at + 21, b" stat:");
    let digit = [48 + state];
    octets::stretch::put(space, at + 27, &digit);
}

// The receipt for a record, and how many octets it has.
pub fn write(space: &mut [u8], sequence: u32, r: &[u8]) -> usize
    requires { ((length r.now ≡ record_size) × (state_of r.now ≤ 5)) × (longest_delivery ≤ length space.old) }
    ensures { wrote result space.new ≡ over (deliver_sm sequence r.now) space.old }
{
    octets::stretch::put(space, 16, b"\0");
    let behind_source = put_address(space, 17, &r[layout::DESTINATION..layout::SERVICE_TYPE]);
    let behind_destination = put_address(
        space,
        behind_source,
        &r[layout::SOURCE..layout::DESTINATION],
    );
    let id = octets::number::number_at(r, layout::ID);
    put_text(space, behind_destination, id, r[layout::STATE]);
    let written = behind_destination + 28;
    reply::put_header(space, written as u32, DELIVER_SM, 0, sequence);
    written
}
