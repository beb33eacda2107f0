// Classes of octets, and how far a run of one class goes.
ghost use Rattle.std.specs.Prelude.{◌≡◌, ◌≤◌, length, not, position};
ghost use Rattle.octets.specs.Stretch.{every};
ghost use Rattle.forms.specs.Class.{decimal, in_class, lead};

// Kinds that the definitions name (`in_class`), and no tests to be handed in.
#[derive(Clone, Copy)]
pub enum Class {
    NotNul,
    Ascii,
    Space,
    Decimal,
    Hexadecimal,
}

impl Class {
    fn contains(self, x: u8) -> bool
        ensures { result ≡ in_class self x }
    {
        match self {
            Class::NotNul => x != 0,
            Class::Ascii => x.is_ascii(),
            Class::Space => x == b' ',
            Class::Decimal => x.is_ascii_digit(),
            Class::Hexadecimal => x.is_ascii_hexdigit(),
        }
    }
}

pub fn is_decimal(x: u8) -> bool
    ensures { result ≡ decimal x }
{
    x.is_ascii_digit()
}

// Where the first octet stands that isn't of the class.
fn first_outside(s: &[u8], class: Class) -> Option<usize>
    ensures { result ≡ position (λ x. not (in_class class x)) s.now }
{
    s.iter().position(|x| !class.contains(*x))
}

// How many octets of the class s begins with.
pub fn lead_of(s: &[u8], class: Class) -> usize
    ensures { (result ≡ lead (in_class class) s.now) × (result ≤ length s.now) }
{
    first_outside(s, class).unwrap_or(s.len())
}

// Whether every octet is of the class.
pub fn is_all(s: &[u8], class: Class) -> bool
    ensures { result ≡ every (in_class class) s.now }
{
    lead_of(s, class) == s.len()
}
