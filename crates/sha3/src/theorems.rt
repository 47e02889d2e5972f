//! Facts about the definition, each the contract of a function that does nothing else.

ghost use Rattle.sha3.specs.Tables.{TablesStand};
ghost use Rattle.sha3.specs.Pieces.{AnyPieces};
ghost use Rattle.sha3.specs.Examples.{ExamplesStand};

/// The offsets and the round constants are those that the standard's algorithms compute.
pub fn tables_stand()
    ensures { TablesStand }
{}

/// A message that is fed in any pieces has the digest of the whole.
pub fn pieces_agree()
    ensures { AnyPieces }
{}

/// The definition gives published digests.
pub fn examples_stand()
    ensures { ExamplesStand }
{}
