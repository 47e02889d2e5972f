// The steps of members.

/// What a member does with a block.
#[derive(Clone, Copy, PartialEq, Eq, Debug)]
pub enum Act {
    /// A good member makes it.
    Makes,
    /// A good member signs it.
    Signs,
    /// A good member takes it in.
    Takes,
    /// A bad member signs it, whatever it is.
    Forges,
}
