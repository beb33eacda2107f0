// Whose message it is, and which record a message id names.
#![tactic(auto)]

ghost use Rattle.std.specs.Prelude.{◌≡◌, length};
ghost use Rattle.records.specs.Layout.{part_size};
ghost use Rattle.records.specs.Book.{book_record_size};
ghost use Rattle.store.specs.Places.{OnePlace};
ghost use Rattle.source.specs.Source.{no_address, source_for, known};

use forms::field;
use records::book;
use wire::fields::Address;

pub fn is_none(address: Address) -> bool
    ensures { result ≡ no_address address.octets }
{
    let octets = address.octets;
    octets[2] == 0
}

// An empty source means the callback's ton, npi and address.
pub fn source_for(book: &[u8], source: Address) -> Address
    requires { length book.now ≡ book_record_size }
    ensures { result.octets ≡ source_for book.now source.octets }
{
    if is_none(source) {
        let mut octets = [0u8; field::ADDRESS_SIZE];
        octets::stretch::put(&mut octets, 0, &book[book::CALLBACK..book::CALLBACK_END]);
        Address { octets }
    } else {
        source
    }
}

// The record that a message id names.
pub fn find_known(part: &[u8], id: Option<u32>) -> Option<usize>
    requires { length part.now ≡ part_size }
    ensures { (result ≡ known id part.now) × OnePlace result }
{
    match id {
        None => None,
        Some(n) => store::search::find_id(part, n),
    }
}
