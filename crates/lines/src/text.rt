// The text of a line.
ghost use Rattle.std.specs.Prelude.{◌≡◌, ◌+◌, ◌*◌, ◌≤◌, ℕ, List, [], ◌++◌, length, take};
ghost use Rattle.octets.specs.Stretch.{patch};
ghost use Rattle.lines.specs.Line.{decimal, hex_of, shown, line, line_room};
ghost use Rattle.answers.specs.Reply.{space_needed};

use octets::number;
use std::marker::Model;

// The longest line: 3, 20 and 88 characters, two blanks and an end of line, with the number's 20 kept free.
pub const ROOM: usize = 131;

// A line as far as it is written: the first `length` of its octets.
#[derive(Drop)]
struct Line {
    octets: [u8; ROOM],
    length: usize,
}

// Clauses see what is written.
impl Model for Line {
    ghost Value = { List ℕ };

    ghost view = { λ l. take l.length l.octets };

    ghost invariant = { λ l. l.length ≤ line_room };
}

impl Line {
    fn new() -> Line
        ensures { result ≡ [] }
    {
        Line {
            octets: [0; ROOM],
            length: 0,
        }
    }

    fn as_slice(&self) -> &[u8]
        ensures { (result.now ≡ self.now) × (length self.now ≤ line_room) }
    {
        &self.octets[..self.length]
    }

    // What is said stands behind what was.
    fn text(&mut self, said: &[u8])
        requires { length self.old + length said.now ≤ line_room }
        ensures { self.new ≡ self.old ++ said.now }
    {
        let at = self.length;
        let end = at + said.len();
        self.octets[at..end].copy_from_slice(said);
        self.length = end;
    }

    fn decimal(&mut self, n: u64)
        requires { length self.old + 20 ≤ line_room }
        ensures { (self.new ≡ self.old ++ decimal n) × (length self.new ≤ length self.old + 20) }
    {
        let mut digits = [0; 20];
        let k = io::decimal(n, &mut digits);
        self.text(&digits[..k]);
    }

    // A number, and what is said behind it.
    fn count(&mut self, n: u64, behind: &[u8])
        requires { length self.old + (20 + length behind.now) ≤ line_room }
        ensures { (self.new ≡ (self.old ++ decimal n) ++ behind.now) × (length self.new ≤ length self.old + (20 + length behind.now)) }
    {
        self.decimal(n);
        self.text(behind);
    }

    // Two upper-case digits for each octet.
    fn hex(&mut self, octets: &[u8])
        requires { length self.old + 2 * length octets.now ≤ line_room }
        ensures { self.new ≡ self.old ++ hex_of octets.now }
    {
        for x in octets {
            let x = u32::from(*x);
            self.text(&[number::hex_digit(x / 16), number::hex_digit(x % 16)]);
        }
    }

    // The reply in hex, or "-" where there is none.
    fn reply(&mut self, reply: &[u8])
        requires { (length reply.now ≤ space_needed) × (length self.old + 88 ≤ line_room) }
        ensures { (self.new ≡ self.old ++ shown reply.now) × (length self.new ≤ length self.old + 88) }
    {
        if reply.is_empty() {
            self.text(b"-")
        } else {
            self.hex(reply)
        }
    }
}

// Answer, consumed count and reply, and the line's end. It writes into a text that it is lent, since its clause says what that text holds then; the answer is any octet, as the clause is.
pub fn put_line(text: &mut [u8], number: u8, consumed: usize, reply: &[u8]) -> usize
    requires { (length reply.now ≤ space_needed) × (length text.old ≡ line_room) }
    ensures { (text.new ≡ patch text.old 0 (line number consumed reply.now)) × (result ≡ length (line number consumed reply.now)) × (result ≤ line_room) }
{
    let mut line = Line::new();
    line.count(u64::from(number), b" ");
    line.count(consumed as u64, b" ");
    line.reply(reply);
    line.text(b"\n");
    let said = line.as_slice();
    octets::stretch::put(text, 0, said);
    said.len()
}
