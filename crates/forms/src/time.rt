// Times: YYMMDDhhmmsstnnp.
ghost use Rattle.std.specs.Prelude.{◌≡◌, ◌<◌};
ghost use Rattle.forms.specs.Time.{two_digits, is_time, sent_time, stored_time};

use crate::class;

pub const LENGTH: usize = 16;

// Two decimal digits, a number from `low` to `high`.
fn is_two(a: u8, b: u8, low: u8, high: u8) -> bool
    ensures { result ≡ two_digits low high a b }
{
    if class::is_decimal(a) & class::is_decimal(b) {
        let n = (a - b'0') * 10 + (b - b'0');
        (low..=high).contains(&n)
    } else {
        false
    }
}

fn is_time(t: &[u8]) -> bool
    ensures { result ≡ is_time t.now }
{
    if t.len() != LENGTH {
        return false;
    }
    let sign = t[15];
    is_two(t[0], t[1], 0, 99)
        & is_two(t[2], t[3], 1, 12)
        & is_two(t[4], t[5], 1, 31)
        & is_two(t[6], t[7], 0, 23)
        & is_two(t[8], t[9], 0, 59)
        & is_two(t[10], t[11], 0, 59)
        & class::is_decimal(t[12])
        & is_two(t[13], t[14], 0, 48)
        & ((sign == b'+') | (sign == b'-'))
}

// A time that a request or a call gives. Its rule and the one below have two names, since request 02.5 changes the first alone.
pub fn is_sent_time(t: &[u8]) -> bool
    ensures { result ≡ sent_time t.now }
{
    is_time(t)
}

// A time that a record holds.
pub fn is_stored_time(t: &[u8]) -> bool
    ensures { result ≡ stored_time t.now }
{
    is_time(t)
}
