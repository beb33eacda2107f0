// Why a call is refused, or has nothing to give: the numbers a caller gets.
ghost use Rattle.std.specs.Prelude.{◌≡◌};
ghost use Rattle.session.specs.Refusal.{number_of, outcome_number};

#[derive(Clone, Copy)]
pub enum Refusal {
    MoreNeeded,
    NoSession,
    WrongSize,
    SpaceTooShort,
    StampIllFormed,
    UnfitSession,
    NoAccount,
    NoOutcome,
    AccountIllFormed,
    NotWaiting,
    NothingWaiting,
    NoReceiver,
    NothingOwed,
}

impl From<Refusal> for u8 {
    ghost from_gives = { λ refusal n. n ≡ number_of refusal };

    fn from(refusal: Refusal) -> u8 {
        match refusal {
            Refusal::MoreNeeded => 1,
            Refusal::NoSession => 2,
            Refusal::WrongSize => 3,
            Refusal::SpaceTooShort => 4,
            Refusal::StampIllFormed => 5,
            Refusal::UnfitSession => 6,
            Refusal::NoAccount => 7,
            Refusal::NoOutcome => 8,
            Refusal::AccountIllFormed => 9,
            Refusal::NotWaiting => 10,
            Refusal::NothingWaiting => 11,
            Refusal::NoReceiver => 12,
            Refusal::NothingOwed => 13,
        }
    }
}

// The number of what a call comes to: 0 where it isn't refused.
pub fn number_of<T: Drop>(outcome: Result<T, Refusal>) -> u8
    ensures { result ≡ outcome_number outcome }
{
    match outcome {
        Ok(_) => 0,
        Err(refusal) => u8::from(refusal),
    }
}
