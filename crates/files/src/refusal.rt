// Why a call refuses. A refusal's number is what the call hands back; 0 is acceptance.
ghost use Rattle.std.specs.Prelude.{◌≡◌};
ghost use Rattle.files.specs.Refuse.{◌unless◌};
ghost use Rattle.files.specs.Refusal.{code, number};

#[derive(Clone, Copy, Debug, PartialEq, Eq)]
pub enum Refusal {
    // A buffer is too short.
    NoRoom = 1,
    // No words, too many, or bytes not in fours.
    WrongSize = 2,
    WrongHeader = 3,
    // The header says another length.
    WrongLength = 4,
    WrongWord = 5,
    NotAscending = 6,
    WrongRoot = 7,
    // An edge's target is no node of the whole.
    LostTarget = 8,
    WrongOperands = 9,
    StateTooHigh = 10,
    // A cut list or a site, or what a plant is to be generated from.
    WrongCounts = 11,
    // Replies of one site twice, or of different n; a call list whose n is not the path's.
    MixedReplies = 12,
    NodeTwice = 13,
    // A pair whose node is no door.
    Stray = 14,
    // The result is over its limit; of one reply for eight, a long one without room too.
    TooLong = 15,
    WrongGroups = 16,
    // A bundle of paths that is not just some files.
    WrongFiles = 17,
    WrongTriples = 18,
    // A node of the whole is stopped, or no triple says it.
    Unsaid = 19,
    NoWalk = 20,
    // What a dearest part is to be made of.
    WrongDemands = 21,
}

impl Refusal {
    pub fn code(self) -> u32
        ensures { result ≡ code self }
    {
        self as u32
    }
}

// The number of what a check or a call came to.
pub fn number(outcome: Result<(), Refusal>) -> u32
    ensures { result ≡ number outcome }
{
    match outcome {
        Ok(()) => 0,
        Err(refusal) => refusal.code(),
    }
}

// A check: its refusal, unless the test passes.
pub fn ensure(ok: bool, refusal: Refusal) -> Result<(), Refusal>
    ensures { number result ≡ (code refusal unless ok) }
{
    if ok { Ok(()) } else { Err(refusal) }
}
