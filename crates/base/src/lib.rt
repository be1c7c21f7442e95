// What every crate speaks of: why a call is refused. The tests and lists of specs/ are the words of all definitions.
#![tactic(auto)]

ghost use Rattle.std.specs.Prelude.{◌≡◌};
ghost use Rattle.base.specs.Refusals.{number, culprit};

// Why a call is refused, in the order of its numbers (docs/FORMAT.md, 7.3). A malformed candidate and a directory of the tenth level
// are named by their LBN.
#[derive(Clone, Copy, Debug, PartialEq, Eq)]
pub enum Refusal {
    BadImage,
    BadPartition,
    BadBuffer,
    Malformed(usize),
    Unsound,
    NoCandidate,
    BadBlock,
    Full,
    NothingFree,
    NoAddress,
    TooDeep(usize),
    BadName,
}

// The number of a refusal, by the name that contracts and docs have for it; `u32::from` below is the same.
pub fn number(why: Refusal) -> u32
    ensures { result ≡ number why }
{
    match why {
        Refusal::BadImage => 1,
        Refusal::BadPartition => 2,
        Refusal::BadBuffer => 3,
        Refusal::Malformed(_) => 4,
        Refusal::Unsound => 5,
        Refusal::NoCandidate => 6,
        Refusal::BadBlock => 7,
        Refusal::Full => 8,
        Refusal::NothingFree => 9,
        Refusal::NoAddress => 10,
        Refusal::TooDeep(_) => 11,
        Refusal::BadName => 12,
    }
}

// The block that a refusal names, or 0, as an answer in C has it.
pub fn culprit(why: Refusal) -> usize
    ensures { result ≡ culprit why }
{
    match why {
        Refusal::Malformed(f) | Refusal::TooDeep(f) => f,
        _ => 0,
    }
}

// A refusal as its number.
impl From<Refusal> for u32 {
    ghost from_gives = { λ why n. n ≡ number why };

    fn from(why: Refusal) -> u32 {
        number(why)
    }
}
