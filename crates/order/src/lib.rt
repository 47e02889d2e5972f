// The order, read off a web in linear time. Each block has a place in tables, by its round and author, so that walking the places is walking
// the web by rounds and authors, and no sorting or search by name is needed.
#![tactic(auto)]

ghost use Rattle.std.specs.Prelude.{◌≡◌, length};
ghost use Rattle.model.specs.Order.{last_round, order};
ghost use Rattle.model.specs.Seat.{padded};
ghost use Rattle.model.specs.Reading.{Readable};

use crate::grid::Grid;
use book::library::Library;
use members::Faults;

mod grid;
mod tables;
mod width;

/// The names of the order at the front of `out`, noughts behind them, and how many they are: there is no heap for a list of its own.
pub fn read_order<B: Library>(book: &B, faults: Faults, web: &[u32], out: &mut [u32; 4096]) -> u32
    requires { Readable faults.f (B.Library.what book.now) web.now }
    ensures count { result ≡ length (order faults.f (B.Library.what book.now) web.now) }
    ensures listed { out.new ≡ padded 4096 (order faults.f (B.Library.what book.now) web.now) }
{
    *out = [0; 4096];
    let last = last_round(book, web);
    let mut grid = Grid::new(book, faults);
    grid.enter(web);
    match grid.last_voted(last) {
        None => 0,
        Some(k) => {
            grid.mark_from(k);
            grid.write(out)
        }
    }
}

// the latest round in the web
fn last_round<B: Library>(book: &B, web: &[u32]) -> u32
    ensures { result ≡ last_round (B.Library.what book.now) web.now }
{
    web.iter().fold(0, |last, name| last.max(book.round(*name)))
}
