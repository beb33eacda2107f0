// A text in a stored field of fixed size, zeros behind it.
ghost use Rattle.std.specs.Prelude.{◌≡◌};
ghost use Rattle.octets.specs.Lent.{lent};
ghost use Rattle.forms.specs.Field.{text_part, is_field};

use crate::class::Class;
use crate::text::Form;
use crate::{class, text};

// An address as it is kept: type of number, numbering plan, and its characters in 20 octets.
pub const ADDRESS_SIZE: usize = 22;

// The octets up to the first zero.
pub fn text_of(field: &[u8]) -> &[u8]
    ensures { lent result ≡ text_part (lent field.entry) }
{
    let n = class::lead_of(field, Class::NotNul);
    octets::stretch::first(field, n)
}

// A text of the form, and zeros behind it.
pub fn is_field(field: &[u8], form: Form) -> bool
    ensures { result ≡ is_field form field.now }
{
    let n = class::lead_of(field, Class::NotNul);
    let text = octets::stretch::first(field, n);
    let behind = octets::stretch::from(field, n);
    text::is_formed(text, form) & octets::stretch::all_zero(behind)
}
