// That something may not be done.
ghost use Rattle.std.specs.Prelude.{Some, codes};

use replica::Denied;
use std::error::Error;
use std::fmt;

/// What was asked for may not happen: it isn't done, and nothing has changed.
#[derive(Clone, Copy, Debug, PartialEq, Eq)]
pub struct NotDone;

impl fmt::Display for NotDone {
    ghost output = { λ _. Some (codes "it may not be done") };

    fn fmt<W: fmt::Write>(&self, f: &mut fmt::Formatter<W>) -> fmt::Result {
        f.write_str("it may not be done")
    }
}

impl Error for NotDone {}

/// Whatever a seat denies isn't done, for whichever reason.
impl From<Denied> for NotDone {
    fn from(_denied: Denied) -> NotDone {
        NotDone
    }
}
