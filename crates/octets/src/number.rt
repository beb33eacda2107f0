// Numbers in octets: 32 bits, the most significant octet first, and as eight hex digits.
ghost use Rattle.std.specs.Prelude.{◌≡◌, ◌+◌, ◌≤◌, ◌<◌, length};
ghost use Rattle.octets.specs.Stretch.{part, patch};
ghost use Rattle.octets.specs.Number.{number, octets4, hex_digit, hex8};

use crate::stretch;

// The number in the four octets from `at` on.
pub fn number_at(s: &[u8], at: usize) -> u32
    requires { at + 4 ≤ length s.now }
    ensures { result ≡ number (part at 4 s.now) }
{
    u32::from_be_bytes([s[at], s[at + 1], s[at + 2], s[at + 3]])
}

// Writes n into the four octets from `at` on.
pub fn put_number(target: &mut [u8], at: usize, n: u32)
    requires { at + 4 ≤ length target.old }
    ensures { target.new ≡ patch target.old at (octets4 n) }
{
    stretch::put(target, at, &n.to_be_bytes());
}

// The upper-case hex digit of a number below 16: `char::from_digit` gives the lower-case one.
pub fn hex_digit(d: u32) -> u8
    requires { d < 16 }
    ensures { result ≡ hex_digit d }
{
    if d < 10 {
        b'0' + d as u8
    } else {
        b'A' + (d - 10) as u8
    }
}

// Writes n as eight upper-case hex digits from `at` on: into a lent slice and no text, which `write!` would need.
pub fn put_hex(target: &mut [u8], at: usize, n: u32)
    requires { at + 8 ≤ length target.old }
    ensures { target.new ≡ patch target.old at (hex8 n) }
{
    let digits = [
        hex_digit(n / 268435456 % 16),
        hex_digit(n / 16777216 % 16),
        hex_digit(n / 1048576 % 16),
        hex_digit(n / 65536 % 16),
        hex_digit(n / 4096 % 16),
        hex_digit(n / 256 % 16),
        hex_digit(n / 16 % 16),
        hex_digit(n % 16),
    ];
    stretch::put(target, at, &digits);
}
