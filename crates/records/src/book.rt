// The account book's record, and how names and addresses compare: leading spaces don't count.
ghost use Rattle.std.specs.Prelude.{◌≡◌, ◌≤◌, ◌<◌, length};
ghost use Rattle.octets.specs.Stretch.{same};
ghost use Rattle.octets.specs.Lent.{lent};
ghost use Rattle.records.specs.Layout.{account_count};
ghost use Rattle.records.specs.Book.{book_record_size, book_record_part, book_size, ended_text, used_ok, same_name, same_system_id, unspaced, same_address, named, password_is};

use crate::layout;
use forms::class::Class;
use forms::text::Form;
use forms::{class, field, text};
use octets::stretch;

// Where the fields of a book record start. Each ends where the next one starts.
const SYSTEM_ID: usize = 0;

const PASSWORD: usize = 16;

const SYSTEM_TYPE: usize = 25;

// Ton and npi, and then the address.
pub const CALLBACK: usize = 38;

const CALLBACK_ADDRESS: usize = 40;

const SPARE: usize = 61;

pub const RECORD_SIZE: usize = 64;

// Where the callback as a source ends: behind its 20 characters at most, before the zero that its field ends with.
pub const CALLBACK_END: usize = CALLBACK + field::ADDRESS_SIZE;

// The book's records, one behind the other.
pub const SIZE: usize = RECORD_SIZE * layout::ACCOUNTS;

// The record of account a, in the book itself.
pub fn record_of(book: &[u8], a: usize) -> &[u8]
    requires { (length book.now ≡ book_size) × (a < account_count) }
    ensures { (lent result ≡ book_record_part a (lent book.entry)) × (length result.now ≡ book_record_size) }
{
    let at = RECORD_SIZE * a;
    &book[at..at + RECORD_SIZE]
}

fn is_ended_text(f: &[u8], form: Form) -> bool
    requires { 1 ≤ length f.now }
    ensures { result ≡ ended_text form f.now }
{
    let last = f.len() - 1;
    field::is_field(f, form) & (f[last] == 0)
}

// Used and well formed: a callback address is never empty, so such a record is not all zero.
pub fn is_used_ok(b: &[u8]) -> bool
    requires { length b.now ≡ book_record_size }
    ensures { result ≡ used_ok b.now }
{
    is_ended_text(&b[SYSTEM_ID..PASSWORD], Form::Ascii)
        & is_ended_text(&b[PASSWORD..SYSTEM_TYPE], Form::Ascii)
        & is_ended_text(&b[SYSTEM_TYPE..CALLBACK], Form::Ascii)
        & is_ended_text(&b[CALLBACK_ADDRESS..SPARE], Form::Digits)
        & stretch::all_zero(&b[SPARE..RECORD_SIZE])
}

fn is_same_name(a: &[u8], b: &[u8]) -> bool
    ensures { result ≡ same_name a.now b.now }
{
    stretch::is_same(text::after_spaces(a), text::after_spaces(b))
}

// A system_id of spaces only matches nothing.
fn is_same_system_id(a: &[u8], b: &[u8]) -> bool
    ensures { result ≡ same_system_id a.now b.now }
{
    !text::is_given(a, Class::Space) & !text::is_given(b, Class::Space) & is_same_name(a, b)
}

// Whether two addresses' numbers are the same but for leading spaces: equal as far as both go, and zeros behind that, so that nothing has to be
// copied to the front of its field.
fn is_same_number(a: &[u8], b: &[u8]) -> bool
    ensures { result ≡ same (unspaced a.now) (unspaced b.now) }
{
    let x = text::after_spaces(a);
    let y = text::after_spaces(b);
    (a.len() == b.len())
        & stretch::is_same(stretch::first(x, y.len()), stretch::first(y, x.len()))
        & stretch::all_zero(stretch::from(x, y.len()))
        & stretch::all_zero(stretch::from(y, x.len()))
}

// Whether two addresses are the same, whatever spaces they begin with.
fn is_same_spaced(a: &[u8], b: &[u8]) -> bool
    ensures { result ≡ same_address a.now b.now }
{
    stretch::is_same(stretch::first(a, 2), stretch::first(b, 2))
        & is_same_number(stretch::from(a, 2), stretch::from(b, 2))
}

// Few addresses have leading spaces: the others compare as they stand, which is quicker. The two calls of the longer comparison keep it out of
// the searches that this one is compiled into.
pub fn is_same_address(a: &[u8], b: &[u8]) -> bool
    ensures { result ≡ same_address a.now b.now }
{
    if 0 < class::lead_of(stretch::from(a, 2), Class::Space) {
        return is_same_spaced(a, b);
    }
    if 0 < class::lead_of(stretch::from(b, 2), Class::Space) {
        return is_same_spaced(a, b);
    }
    stretch::is_same(a, b)
}

// Whether a bind's system_id and system_type name this record.
pub fn is_named(b: &[u8], system: &[u8], kind: &[u8]) -> bool
    requires { length b.now ≡ book_record_size }
    ensures { result ≡ named system.now kind.now b.now }
{
    // The names first: they tell most records apart, and the test of a whole record takes longer.
    let named = is_same_system_id(field::text_of(&b[SYSTEM_ID..PASSWORD]), system)
        & is_same_name(field::text_of(&b[SYSTEM_TYPE..CALLBACK]), kind);
    if named { is_used_ok(b) } else { false }
}

pub fn is_password(b: &[u8], password: &[u8]) -> bool
    requires { length b.now ≡ book_record_size }
    ensures { result ≡ password_is password.now b.now }
{
    stretch::is_same(field::text_of(&b[PASSWORD..SYSTEM_TYPE]), password)
}
