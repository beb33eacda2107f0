// The test of one message record.
ghost use Rattle.std.specs.Prelude.{◌≡◌, length};
ghost use Rattle.forms.specs.Class.{within};
ghost use Rattle.forms.specs.Field.{address_size};
ghost use Rattle.records.specs.Layout.{record_size};
ghost use Rattle.records.specs.Record.{address_ok, time_ok, text_ok, fields_ok, end_ok, mark_ok, message_ok, record_ok};

use crate::layout;
use forms::text::Form;
use forms::{field, text};

fn is_within(low: u32, high: u32, x: u32) -> bool
    ensures { result ≡ within low high x }
{
    (low <= x) & (x <= high)
}

// Most messages have no times: then the longer test is spared.
fn is_time_ok(t: &[u8]) -> bool
    ensures { result ≡ time_ok t.now }
{
    if octets::stretch::all_zero(t) {
        true
    } else {
        forms::time::is_stored_time(t)
    }
}

fn is_address_ok(address: &[u8]) -> bool
    requires { length address.now ≡ address_size }
    ensures { result ≡ address_ok address.now }
{
    field::is_field(&address[2..field::ADDRESS_SIZE], Form::Address)
}

fn is_text_ok(r: &[u8]) -> bool
    requires { length r.now ≡ record_size }
    ensures { result ≡ text_ok r.now }
{
    let default = r[layout::DEFAULT_ID];
    let size = r[layout::LENGTH];
    let unused = octets::stretch::from(&r[layout::TEXT..layout::FINAL_DATE], size as usize);
    (default <= 100)
        & (size <= text::LONGEST_TEXT)
        & ((size == 0) | (default == 0))
        & octets::stretch::all_zero(unused)
}

fn are_fields_ok(r: &[u8]) -> bool
    requires { length r.now ≡ record_size }
    ensures { result ≡ fields_ok r.now }
{
    is_address_ok(&r[layout::SOURCE..layout::DESTINATION])
        & is_address_ok(&r[layout::DESTINATION..layout::SERVICE_TYPE])
        & field::is_field(&r[layout::SERVICE_TYPE..layout::ESM_CLASS], Form::Ascii)
        & (r[layout::PRIORITY] <= 1)
        & is_time_ok(&r[layout::SCHEDULE..layout::VALIDITY])
        & is_time_ok(&r[layout::VALIDITY..layout::REGISTERED])
        & (r[layout::REGISTERED] <= 1)
        & is_text_ok(r)
}

fn is_end_ok(r: &[u8]) -> bool
    requires { length r.now ≡ record_size }
    ensures { result ≡ end_ok r.now }
{
    let state = r[layout::STATE];
    let error_fits = (r[layout::ERROR_CODE] == 0) | !((state == 1) | (state == 4));
    if state == 1 {
        octets::stretch::all_zero(&r[layout::FINAL_DATE..layout::ERROR_CODE]) & error_fits
    } else {
        forms::time::is_stored_time(&r[layout::FINAL_DATE..layout::ERROR_CODE]) & error_fits
    }
}

// The mark says that a receipt is owed: for a registered message that is no longer waiting.
fn is_mark_ok(r: &[u8]) -> bool
    requires { length r.now ≡ record_size }
    ensures { result ≡ mark_ok r.now }
{
    let mark = r[layout::MARK];
    let state = u32::from(r[layout::STATE]);
    (mark == 0) | ((mark == 1) & (r[layout::REGISTERED] == 1) & is_within(2, 5, state))
}

fn is_message_ok(last: u32, r: &[u8]) -> bool
    requires { length r.now ≡ record_size }
    ensures { result ≡ message_ok last r.now }
{
    is_within(1, 5, u32::from(r[layout::STATE]))
        & is_within(1, last, octets::number::number_at(r, layout::ID))
        & are_fields_ok(r)
        & is_end_ok(r)
        & is_mark_ok(r)
        & octets::stretch::all_zero(&r[layout::SPARE..layout::RECORD_SIZE])
}

// The state octet tells which of the two a record has to be.
pub fn is_record_ok(last: u32, r: &[u8]) -> bool
    requires { length r.now ≡ record_size }
    ensures { result ≡ record_ok last r.now }
{
    if r[layout::STATE] == 0 {
        octets::stretch::all_zero(r)
    } else {
        is_message_ok(last, r)
    }
}
