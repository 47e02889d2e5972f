// Leave to sign. Only the seat's `sign` gives it, and each leave is spent once. The layer that signs blocks is to ask for one, by value, so that no
// signature of a block is made but for one that the seat answered for.
ghost use Rattle.std.specs.Prelude.{◌≡◌};

/// Leave to sign one block in one member's name. It can't be copied or dropped, and is made nowhere but in the module above.
pub struct LeaveToSign {
    number: u32,
    name: u32,
}

/// What a leave was given for: the member's number and the block's name. It has the leave's fields, but says only what was, so it may be copied.
#[derive(Clone, Copy, PartialEq, Eq, Debug)]
pub struct Spent {
    pub number: u32,
    pub name: u32,
}

impl LeaveToSign {
    /// Leave for the member of this number to sign the block of this name.
    pub(super) fn give(number: u32, name: u32) -> LeaveToSign
        ensures number { result.number ≡ number }
        ensures name { result.name ≡ name }
    {
        LeaveToSign { number, name }
    }

    /// Uses the leave up, and says what it was given for.
    pub fn spend(self) -> Spent
        ensures number { result.number ≡ self.number }
        ensures name { result.name ≡ self.name }
    {
        let LeaveToSign { number, name } = self;
        Spent { number, name }
    }
}
