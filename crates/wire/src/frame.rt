// The first PDU of the octets received, and a PDU's header.
ghost use Rattle.std.specs.Prelude.{◌≡◌, ◌≤◌, length};
ghost use Rattle.wire.specs.Frame.{frame_of, Framed, header_of};

pub const SHORTEST_PDU: u32 = 16;

pub const LONGEST_PDU: u32 = 512;

// Three kinds, as its definition has them: to wait, to end the session, to go on.
#[derive(Clone, Copy)]
pub enum Frame {
    // more octets are needed
    More,
    // a command length that no PDU has
    Malformed,
    // a whole PDU, of so many octets
    Whole(usize),
}

pub fn frame_of(octets: &[u8]) -> Frame
    ensures { (result ≡ frame_of octets.now) × Framed octets.now result }
{
    if octets.len() < 4 {
        return Frame::More;
    }
    let n = octets::number::number_at(octets, 0);
    if (n < SHORTEST_PDU) | (LONGEST_PDU < n) {
        return Frame::Malformed;
    }
    let whole = n as usize;
    if octets.len() < whole {
        return Frame::More;
    }
    Frame::Whole(whole)
}

// A header but for its length. Of a request the status field is ignored.
#[derive(Clone, Copy)]
pub struct Header {
    pub command: u32,
    pub status: u32,
    pub sequence: u32,
}

pub fn read_header(pdu: &[u8]) -> Header
    requires { 16 ≤ length pdu.now }
    ensures { result ≡ header_of pdu.now }
{
    let command = octets::number::number_at(pdu, 4);
    let status = octets::number::number_at(pdu, 8);
    let sequence = octets::number::number_at(pdu, 12);
    Header {
        command,
        status,
        sequence,
    }
}
