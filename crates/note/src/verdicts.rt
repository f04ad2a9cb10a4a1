// Verdicts: their numbers, one condition's, and the earlier of two.
ghost use Rattle.std.specs.Prelude.{◌≡◌, cond, Err};
ghost use Rattle.note.specs.Refusals.{answer_of, number_of, Accepted};
ghost use Rattle.note.specs.Rank.{earlier};

use crate::Refusal;

// A refusal's number.
impl From<Refusal> for u32 {
    ghost from_gives = { λ k n. n ≡ number_of k };

    fn from(k: Refusal) -> u32 {
        match k {
            Refusal::IllFormed => 1,
            Refusal::TooLong => 2,
            Refusal::LengthMismatch => 3,
            Refusal::Misaligned => 4,
            Refusal::NotBoundary => 5,
            Refusal::BadScript => 6,
            Refusal::Exhausted => 7,
            Refusal::BadMatches => 8,
            Refusal::NoRoom => 9,
            Refusal::Missing => 10,
            Refusal::CountMismatch => 11,
        }
    }
}

// A verdict as one number: 0 where the call is accepted.
pub fn answer(v: Result<(), Refusal>) -> u32
    ensures { result ≡ answer_of v }
{
    match v {
        Ok(()) => 0,
        Err(k) => u32::from(k),
    }
}

// The verdict of one condition.
pub fn refused_if(met: bool, k: Refusal) -> Result<(), Refusal>
    ensures { result ≡ cond met (Err k) Accepted }
{
    if met {
        return Err(k);
    }
    Ok(())
}

// The earlier of two verdicts, for inputs that are judged apart and answered together.
pub fn earlier(v: Result<(), Refusal>, w: Result<(), Refusal>) -> Result<(), Refusal>
    ensures { result ≡ earlier v w }
{
    match (v, w) {
        (Ok(()), w) => w,
        (Err(j), Ok(())) => Err(j),
        (Err(j), Err(k)) => Err(j.min(k)),
    }
}
