// A record of the input: kind, session, length (two octets, high first), stamp 16, payload 512, zeros 12.
ghost use Rattle.std.specs.Prelude.{◌≡◌, ◌<◌, length};
ghost use Rattle.lines.specs.Record.{record_size, length_of, order_of, Readable};

pub const SIZE: usize = 544;

const PAYLOAD_SIZE: usize = 512;

// What a record asks for.
#[derive(Clone, Copy)]
pub enum Order {
    Open,
    Octets,
    Close,
    Outcome,
}

pub fn length_of(asked: &[u8]) -> usize
    requires { length asked.now ≡ record_size }
    ensures { (result ≡ length_of asked.now) × (result < 65536) }
{
    usize::from(u16::from_be_bytes([asked[2], asked[3]]))
}

// None: a bad record. Fields that a kind has no use for are not examined.
pub fn order_of(asked: &[u8]) -> Option<Order>
    ensures { (result ≡ order_of asked.now) × Readable result asked.now }
{
    if asked.len() != SIZE {
        return None;
    }
    let length = length_of(asked);
    // The kinds are the input's own octets.
    match asked[0] {
        0 => Some(Order::Open),
        1 if length <= PAYLOAD_SIZE => Some(Order::Octets),
        2 => Some(Order::Close),
        3 if length == 7 => Some(Order::Outcome),
        _ => None,
    }
}
