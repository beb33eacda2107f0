// Replies that an open and a bound session give alike.
ghost use Rattle.std.specs.Prelude.{◌≡◌, ◌≤◌, length, None};
ghost use Rattle.wire.specs.Status.{invalid_command_length, invalid_command_id, invalid_bind_status};
ghost use Rattle.answers.specs.Reply.{space_needed, generic_nak, no_body, submit_body, no_query, reply, over, wrote};

use crate::reply;
use wire::status;

// A request that the session's state doesn't allow, where the response has no body.
pub fn wrong_state(space: &mut [u8], id: u32, sequence: u32) -> usize
    requires { space_needed ≤ length space.old }
    ensures { wrote result space.new ≡ over (reply id invalid_bind_status sequence no_body) space.old }
{
    reply::bare(space, id, status::INVALID_BIND_STATUS, sequence)
}

// A submission that the session's state doesn't allow.
pub fn no_submission(space: &mut [u8], sequence: u32) -> usize
    requires { space_needed ≤ length space.old }
    ensures { wrote result space.new ≡ over (reply 0x80000004 invalid_bind_status sequence (submit_body None)) space.old }
{
    reply::submit(space, status::INVALID_BIND_STATUS, sequence, None)
}

// A query that is refused.
pub fn no_query(space: &mut [u8], status: u8, sequence: u32) -> usize
    requires { space_needed ≤ length space.old }
    ensures { wrote result space.new ≡ over (reply 0x80000003 status sequence no_query) space.old }
{
    reply::query(space, status, sequence, None, b"", 0, 0)
}

// enquire_link suits any live session.
pub fn link(space: &mut [u8], status: u8, sequence: u32) -> usize
    requires { space_needed ≤ length space.old }
    ensures { wrote result space.new ≡ over (reply 0x80000015 status sequence no_body) space.old }
{
    reply::bare(space, 0x8000_0015, status, sequence)
}

// A command id that no request has.
pub fn unknown(space: &mut [u8], sequence: u32) -> usize
    requires { space_needed ≤ length space.old }
    ensures { wrote result space.new ≡ over (reply generic_nak invalid_command_id sequence no_body) space.old }
{
    reply::bare(
        space,
        reply::GENERIC_NAK,
        status::INVALID_COMMAND_ID,
        sequence,
    )
}

// A length that no PDU has.
pub fn bad_length(space: &mut [u8]) -> usize
    requires { space_needed ≤ length space.old }
    ensures { wrote result space.new ≡ over (reply generic_nak invalid_command_length 0 no_body) space.old }
{
    reply::bare(space, reply::GENERIC_NAK, status::INVALID_COMMAND_LENGTH, 0)
}
