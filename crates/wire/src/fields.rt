// The fields of a body, each read where the one before it ended.
ghost use Rattle.std.specs.Prelude.{◌≡◌, ℕ, ◌+◌, ◌-◌, ◌≤◌, IfOk, IfErr, MatchResult};
ghost use Rattle.octets.specs.Lent.{lent};
ghost use Rattle.forms.specs.Text.{longest_text};
ghost use Rattle.wire.specs.Status.{code};
ghost use Rattle.wire.specs.Cursor.{start, end_of};
ghost use Rattle.wire.specs.Fields.{Inside, span_part, octet_at, text_at, address_at, time_at, id_at, span_at, short_at, standing, status_of, Gives};

use crate::status::Status;
use forms::class::Class;
use forms::text::Form;
use forms::{field, text, time};

// A time's characters and their NUL.
const TIME_FIELD: usize = time::LENGTH + 1;

// A stretch of the body: where it starts and how long it is. It is no slice: the definitions of the requests (`submit_of` ..) and the laws above
// tell a text by its place in the body, so with slices each request would stand in specs a second time.
#[derive(Clone, Copy, Debug, PartialEq, Eq)]
pub struct Span {
    pub from: usize,
    pub len: usize,
}

// The octets of the body that a span names: that part of the body itself.
pub fn octets_of(body: &[u8], span: Span) -> &[u8]
    requires { Inside span body.now }
    ensures { lent result ≡ span_part span (lent body.entry) }
{
    let from = span.from;
    let end = from + span.len;
    &body[from..end]
}

// Type of number, numbering plan, and the address in 20 octets, zeros behind it; all 20 are zero where none is given.
#[derive(Clone, Copy)]
pub struct Address {
    pub octets: [u8; field::ADDRESS_SIZE],
}

// A time's 16 characters, or zeros where none is given.
#[derive(Clone, Copy)]
pub struct Time {
    pub octets: [u8; time::LENGTH],
}

// What is wrong with a field.
#[derive(Clone, Copy, Debug, PartialEq, Eq)]
pub enum Fault {
    // the body ends before it does
    Short,
    // a value that the field may not have
    Bad,
}

impl Fault {
    // The status that refuses the field, where `bad` is the one for a bad value.
    pub fn status(self, bad: Status) -> Status
        ensures { code result ≡ status_of (code bad) self }
    {
        match self {
            Fault::Short => Status::InvalidCommandLength,
            Fault::Bad => bad,
        }
    }
}

// A body, and where its next field starts. The first field that is refused ends the reading.
#[derive(Clone, Copy, Debug)]
pub struct Fields<'a> {
    pub body: &'a [u8],
    pub at: usize,
}

impl<'a> Fields<'a> {
    pub fn of(body: &'a [u8]) -> Fields<'a>
        ensures { (result.body ≡ body.entry) × (standing result ≡ start) }
    {
        Fields { body, at: 0 }
    }

    // One octet, of at most `most`.
    pub fn octet(&mut self, most: u8) -> Result<u8, Fault>
        ensures kept { self.new.body ≡ self.old.body }
        ensures read { (bad : ℕ) → Gives (status_of bad) result self.new (octet_at most bad self.old.body.now (standing self.old)) }
        ensures any { most ≡ 255 → IfErr result (λ fault. fault ≡ Fault.Short) }
    {
        match self.body.get(self.at).copied() {
            None => Err(Fault::Short),
            Some(value) if most < value => Err(Fault::Bad),
            Some(value) => {
                self.at += 1;
                Ok(value)
            }
        }
    }

    // A text of at most `most` octets, its NUL among them.
    pub fn text(&mut self, form: Form, most: usize) -> Result<Span, Fault>
        ensures kept { self.new.body ≡ self.old.body }
        ensures read { (bad : ℕ) → Gives (status_of bad) result self.new (text_at form most bad self.old.body.now (standing self.old)) }
        ensures part { IfOk result (λ span. Inside span self.old.body.now × (span.len ≤ most - 1)) }
    {
        let from = self.at;
        let window = octets::stretch::first(octets::stretch::from(self.body, from), most);
        let len = forms::class::lead_of(window, Class::NotNul);
        if len == window.len() {
            return Err(if window.len() < most {
                Fault::Short
            } else {
                Fault::Bad
            });
        }
        if !text::is_formed(octets::stretch::first(window, len), form) {
            return Err(Fault::Bad);
        }
        self.at = from + (len + 1);
        Ok(Span { from, len })
    }

    pub fn address(&mut self) -> Result<Address, Fault>
        ensures kept { self.new.body ≡ self.old.body }
        ensures read { (bad : ℕ) → Gives (status_of bad) result self.new (address_at bad self.old.body.now (standing self.old)) }
    {
        let ton = self.octet(255)?;
        let npi = self.octet(255)?;
        let number = self.text(Form::AddressOrNone, 21)?;
        let mut octets = [0u8; field::ADDRESS_SIZE];
        octets[0] = ton;
        octets[1] = npi;
        octets::stretch::put(&mut octets, 2, octets_of(self.body, number));
        Ok(Address { octets })
    }

    // The same three, where a bad value is refused with status `bad`.
    pub fn octet_or(&mut self, most: u8, bad: Status) -> Result<u8, Status>
        ensures kept { self.new.body ≡ self.old.body }
        ensures read { Gives code result self.new (octet_at most (code bad) self.old.body.now (standing self.old)) }
    {
        self.octet(most).map_err(|fault| fault.status(bad))
    }

    pub fn text_or(&mut self, form: Form, most: usize, bad: Status) -> Result<Span, Status>
        ensures kept { self.new.body ≡ self.old.body }
        ensures read { Gives code result self.new (text_at form most (code bad) self.old.body.now (standing self.old)) }
        ensures part { IfOk result (λ span. Inside span self.old.body.now × (span.len ≤ most - 1)) }
    {
        self.text(form, most).map_err(|fault| fault.status(bad))
    }

    pub fn address_or(&mut self, bad: Status) -> Result<Address, Status>
        ensures kept { self.new.body ≡ self.old.body }
        ensures read { Gives code result self.new (address_at (code bad) self.old.body.now (standing self.old)) }
    {
        self.address().map_err(|fault| fault.status(bad))
    }

    pub fn id(&mut self) -> Result<Option<u32>, Status>
        ensures kept { self.new.body ≡ self.old.body }
        ensures read { Gives code result self.new (id_at self.old.body.now (standing self.old)) }
    {
        let id = self.text_or(Form::MessageIdOrNone, 9, Status::InvalidMessageId)?;
        Ok(text::message_id(octets_of(self.body, id)))
    }

    pub fn time(&mut self) -> Result<Time, Status>
        ensures kept { self.new.body ≡ self.old.body }
        ensures read { Gives code result self.new (time_at self.old.body.now (standing self.old)) }
    {
        let left = octets::stretch::from(self.body, self.at);
        let Some(&first) = left.first() else {
            return Err(Status::InvalidCommandLength);
        };
        let mut octets = [0u8; time::LENGTH];
        if first == 0 {
            self.at += 1;
            return Ok(Time { octets });
        }
        if left.len() < TIME_FIELD {
            return Err(Status::InvalidCommandLength);
        }
        let sent = octets::stretch::first(left, time::LENGTH);
        if time::is_sent_time(sent) && left[time::LENGTH] == 0 {
            octets::stretch::put(&mut octets, 0, sent);
            self.at += TIME_FIELD;
            Ok(Time { octets })
        } else {
            Err(Status::InvalidParameter)
        }
    }

    // The next `len` octets, whatever they are.
    fn span(&mut self, len: u8) -> Result<Span, Status>
        ensures kept { self.new.body ≡ self.old.body }
        ensures read { Gives code result self.new (span_at len self.old.body.now (standing self.old)) }
        ensures part { IfOk result (λ span. Inside span self.old.body.now × (span.len ≤ len)) }
    {
        let len = usize::from(len);
        if octets::stretch::from(self.body, self.at).len() < len {
            return Err(Status::InvalidCommandLength);
        }
        if len == 0 {
            return Ok(Span { from: 0, len });
        }
        let from = self.at;
        self.at += len;
        Ok(Span { from, len })
    }

    // sm_length and the short message, which is not copied. A default message id beside it is refused.
    pub fn short(&mut self, default: u8) -> Result<Span, Status>
        ensures kept { self.new.body ≡ self.old.body }
        ensures read { Gives code result self.new (short_at default self.old.body.now (standing self.old)) }
        ensures part { IfOk result (λ span. Inside span self.old.body.now × (span.len ≤ longest_text)) }
    {
        let len = self.octet_or(text::LONGEST_TEXT, Status::InvalidMessageLength)?;
        if len != 0 && default != 0 {
            return Err(Status::InvalidParameter);
        }
        self.span(len)
    }

    // Octets left over are refused.
    pub fn end(self) -> Result<(), Status>
        ensures { MatchResult result (λ _. end_of self.entry.body.now (standing self.entry) ≡ 0) (λ status. end_of self.entry.body.now (standing self.entry) ≡ code status) }
    {
        if self.at < self.body.len() {
            Err(Status::InvalidCommandLength)
        } else {
            Ok(())
        }
    }
}
