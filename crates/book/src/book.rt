// The book: tables in lent memory, and what always holds of them.
ghost use Rattle.book.specs.Content.{OneName, Limited, ParentsBefore};
ghost use Rattle.book.specs.Memory.{Within};

use crate::tables::Tables;

mod lending;
mod meeting;

/// Blocks in lent memory, each known by its name: the number of blocks that came before it. No block has two names, and its parents are named
/// before it. The blocks fit into the memory that was lent.
// It has no `impl Model`: two things are said of a book, by the definitions `blocks` and `memory`, and most clauses are of one of them.
#[derive(Drop)]
pub struct Book<'a> {
    tables: Tables<'a>,
    ghost fits: { Within tables.lent tables.content },
    ghost apart: { OneName tables.content },
    ghost limited: { Limited tables.content },
    ghost earlier: { ParentsBefore tables.content },
}
