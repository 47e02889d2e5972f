// A block, as it is met and as it is read.

/// The member that made it, its round, the names of the blocks that it builds on, and the bytes that it carries.
#[derive(Clone, Copy, Debug, PartialEq, Eq)]
pub struct Block<'a> {
    pub author: u32,
    pub round: u32,
    pub parents: &'a [u32],
    pub load: &'a [u8],
}
