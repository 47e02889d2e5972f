// Making a book from lent memory, and lending it for reading.
ghost use Rattle.std.specs.Prelude.{◌≡◌, [], length};
ghost use Rattle.book.specs.Views.{held};
ghost use Rattle.book.specs.Memory.{lent_by, Within};
ghost use Rattle.book.specs.Books.{blocks, memory};

use super::Book;
use crate::entry::Entry;
use crate::tables::Tables;
use crate::view::View;

impl<'a> Book<'a> {
    /// An empty book, whatever the memory held before.
    pub fn new(entries: &'a mut [Entry], parents: &'a mut [u32], loads: &'a mut [u8]) -> Book<'a>
        ensures empty { blocks result ≡ [] }
        ensures lent { memory result ≡ lent_by entries.old parents.old loads.old }
    {
        Book {
            tables: Tables::new(entries, parents, loads),
        }
    }

    /// How many blocks there are: their names are the numbers below it.
    pub fn len(&self) -> u32
        ensures { result ≡ length (blocks self.now) }
    {
        self.tables.len()
    }

    /// A law of every book, however it came about: its blocks fit into the memory that was lent.
    pub fn always_fits(&self) -> u8
        ensures { Within (memory self.now) (blocks self.now) }
    {
        0
    }

    /// The blocks, for reading.
    pub fn view(&self) -> View<'_>
        ensures { held result ≡ blocks self.now }
    {
        let tables = &self.tables;
        View {
            entries: tables.entries.as_slice(),
            parents: tables.parents.as_slice(),
            loads: tables.loads.as_slice(),
        }
    }
}
