// The committee that somebody asks for.
ghost use Rattle.std.specs.Prelude.{ℕ, ◌≡◌, ◌<◌, Some, Ok, Err, codes};
ghost use Rattle.lines.specs.Numbers.{Writes};

use lines::numbers::number;
use members::Faults;
use std::error::Error;
use std::fmt;

/// No committee is asked for: it isn't a number, or more members were to be bad than a committee is made for.
#[derive(Clone, Copy, Debug, PartialEq, Eq)]
pub struct NoCommittee;

impl fmt::Display for NoCommittee {
    ghost output = { λ _. Some (codes "a committee is asked for by a number, 0 to 4") };

    fn fmt<W: fmt::Write>(&self, f: &mut fmt::Formatter<W>) -> fmt::Result {
        f.write_str("a committee is asked for by a number, 0 to 4")
    }
}

impl Error for NoCommittee {}

/// The committee that a number in decimal digits asks for: at most so many of its members are bad.
pub fn faults_of(digits: &str) -> Result<Faults, NoCommittee>
    ensures { elim result [ Ok v ↦ Writes digits.now v.f | Err _ ↦ ((f : ℕ) → Writes digits.now f → 4 < f) ] }
{
    let f = number(digits.as_bytes()).ok_or(NoCommittee)?;
    Faults::try_from(f).map_err(|_| NoCommittee)
}
