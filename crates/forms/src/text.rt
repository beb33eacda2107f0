// The forms of a text, and the number that a message id writes.
ghost use Rattle.std.specs.Prelude.{◌≡◌, ◌≤◌, ◌<◌, length};
ghost use Rattle.octets.specs.Lent.{lent};
ghost use Rattle.forms.specs.Class.{in_class};
ghost use Rattle.forms.specs.Text.{after_spaces_part, given_all, formed, nibble, hex_value, message_id};

use crate::class;
use crate::class::Class;

// The longest short message.
pub const LONGEST_TEXT: u8 = 140;

// Kinds that the definitions name (`formed`), and no steps to be handed in.
#[derive(Clone, Copy)]
pub enum Form {
    Ascii,
    Digits,
    Address,
    AddressOrNone,
    MessageIdOrNone,
}

// The text without its leading spaces.
pub fn after_spaces(text: &[u8]) -> &[u8]
    ensures { lent result ≡ after_spaces_part (lent text.entry) }
{
    let n = class::lead_of(text, Class::Space);
    octets::stretch::from(text, n)
}

// At least one octet, and every one of the class.
pub fn is_given(text: &[u8], class: Class) -> bool
    ensures { result ≡ given_all (in_class class) text.now }
{
    !text.is_empty() & class::is_all(text, class)
}

pub fn is_formed(text: &[u8], form: Form) -> bool
    ensures { result ≡ formed form text.now }
{
    match form {
        Form::Ascii => class::is_all(text, Class::Ascii),
        Form::Digits => is_given(text, Class::Decimal),
        Form::Address => is_given(after_spaces(text), Class::Decimal),
        Form::AddressOrNone => { text.is_empty() | is_given(after_spaces(text), Class::Decimal) }
        Form::MessageIdOrNone => {
            let digits = after_spaces(text);
            text.is_empty() | (is_given(digits, Class::Hexadecimal) & (digits.len() <= 8))
        }
    }
}

// What a hex digit of either case stands for. Tried and too slow: a `match` on ranges, and `to_digit`.
fn nibble_of(x: u8) -> u32
    ensures { (result ≡ nibble x) × (result < 16) }
{
    if x.is_ascii_digit() {
        u32::from(x - b'0')
    } else if (b'A'..=b'F').contains(&x) {
        u32::from(x - b'A' + 10)
    } else if (b'a'..=b'f').contains(&x) {
        u32::from(x - b'a' + 10)
    } else {
        0
    }
}

// The number that at most eight hex digits write.
fn hex_value(digits: &[u8]) -> u32
    requires { length digits.now ≤ 8 }
    ensures { result ≡ hex_value digits.now }
{
    let mut value = 0;
    for x in digits {
        value = value * 16 + nibble_of(*x);
    }
    value
}

// A message id as a request gives it: none, which is not the number 0.
pub fn message_id(text: &[u8]) -> Option<u32>
    requires { length text.now ≤ 8 }
    ensures { result ≡ message_id text.now }
{
    if text.is_empty() {
        None
    } else {
        Some(hex_value(after_spaces(text)))
    }
}
