// Values of a response's command_status (002, 7.1), with document 01's numbers.
ghost use Rattle.std.specs.Prelude.{◌≡◌};
ghost use Rattle.wire.specs.Status.{code, outcome_status};

// What refuses a request.
#[derive(Clone, Copy, Debug, PartialEq, Eq)]
pub enum Status {
    InvalidMessageLength = 1,
    InvalidCommandLength = 2,
    InvalidCommandId = 3,
    InvalidBindStatus = 4,
    AlreadyBound = 5,
    InvalidPriority = 6,
    InvalidRegistered = 7,
    SystemError = 8,
    InvalidParameter = 9,
    InvalidSource = 10,
    InvalidDestination = 11,
    InvalidMessageId = 12,
    InvalidPassword = 13,
    CannotCancel = 17,
    CannotReplace = 19,
    QueueFull = 20,
}

impl Status {
    pub fn code(self) -> u8
        ensures { result ≡ code self }
    {
        self as u8
    }
}

// The status of what a request comes to: 0 where it isn't refused.
pub fn of<T: Drop>(outcome: Result<T, Status>) -> u8
    ensures { result ≡ outcome_status outcome }
{
    match outcome {
        Ok(_) => OK,
        Err(status) => status.code(),
    }
}

// The status of what isn't refused, and the others' numbers where an octet is at hand.
pub const OK: u8 = 0;

pub const INVALID_COMMAND_LENGTH: u8 = Status::InvalidCommandLength as u8;

pub const INVALID_COMMAND_ID: u8 = Status::InvalidCommandId as u8;

pub const INVALID_BIND_STATUS: u8 = Status::InvalidBindStatus as u8;

pub const ALREADY_BOUND: u8 = Status::AlreadyBound as u8;
