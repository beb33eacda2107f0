// The replies, written at the front of the lent space; the octets behind a reply stay as they were.
ghost use Rattle.std.specs.Prelude.{◌≡◌, ◌+◌, ◌≤◌, length};
ghost use Rattle.octets.specs.Stretch.{patch};
ghost use Rattle.answers.specs.Reply.{header, reply, submit_response, query_response, space_needed, no_body, bind_body, id_text, submit_body, query_body, wrote, over};

// The longest reply: a query's, 16 + 9 + 17 + 2.
pub const SPACE_NEEDED: usize = 44;

pub const GENERIC_NAK: u32 = 0x8000_0000;

pub const SUBMIT_RESPONSE: u32 = 0x8000_0004;

pub const QUERY_RESPONSE: u32 = 0x8000_0003;

// A status is an octet here, as in every reply: the clauses hold for each of the 256, and an enum would ask more.
pub fn put_header(space: &mut [u8], size: u32, id: u32, status: u8, sequence: u32)
    requires { 16 ≤ length space.old }
    ensures { space.new ≡ patch space.old 0 (header size id status sequence) }
{
    octets::number::put_number(space, 0, size);
    octets::number::put_number(space, 4, id);
    octets::number::put_number(space, 8, u32::from(status));
    octets::number::put_number(space, 12, sequence);
}

// The id and its NUL, or one NUL; how many octets that is.
fn put_id(space: &mut [u8], at: usize, id: Option<u32>) -> usize
    requires { at + 9 ≤ length space.old }
    ensures { (result ≡ length (id_text id)) × (space.new ≡ patch space.old at (id_text id)) }
{
    match id {
        None => {
            octets::stretch::put(space, at, b"\0");
            1
        }
        Some(n) => {
            octets::number::put_hex(space, at, n);
            octets::stretch::put(space, at + 8, b"\0");
            9
        }
    }
}

// A reply with no body: generic_nak and the responses to unbind, cancel_sm, replace_sm and enquire_link.
pub fn bare(space: &mut [u8], id: u32, status: u8, sequence: u32) -> usize
    requires { space_needed ≤ length space.old }
    ensures { wrote result space.new ≡ over (reply id status sequence no_body) space.old }
{
    put_header(space, 16, id, status, sequence);
    16
}

// The response to a bind, which names this centre.
pub fn bind(space: &mut [u8], id: u32, status: u8, sequence: u32) -> usize
    requires { space_needed ≤ length space.old }
    ensures { wrote result space.new ≡ over (reply id status sequence bind_body) space.old }
{
    octets::stretch::put(space, 16, b"SMSC33\0");
    put_header(space, 23, id, status, sequence);
    23
}

pub fn submit(space: &mut [u8], status: u8, sequence: u32, id: Option<u32>) -> usize
    requires { space_needed ≤ length space.old }
    ensures { wrote result space.new ≡ over (reply submit_response status sequence (submit_body id)) space.old }
{
    let n = put_id(space, 16, id);
    let size = 16 + n as u32;
    put_header(space, size, SUBMIT_RESPONSE, status, sequence);
    16 + n
}

// `date` is the final date's 16 characters, or nothing.
pub fn query(
    space: &mut [u8],
    status: u8,
    sequence: u32,
    id: Option<u32>,
    date: &[u8],
    state: u8,
    error: u8,
) -> usize
    requires { (space_needed ≤ length space.old) × (length date.now ≤ 16) }
    ensures { wrote result space.new ≡ over (reply query_response status sequence (query_body id date.now state error)) space.old }
{
    let n = put_id(space, 16, id);
    let behind_id = 16 + n;
    octets::stretch::put(space, behind_id, date);
    let behind_date = behind_id + date.len();
    let last = [0, state, error];
    octets::stretch::put(space, behind_date, &last);
    let written = behind_date + 3;
    put_header(space, written as u32, QUERY_RESPONSE, status, sequence);
    written
}
