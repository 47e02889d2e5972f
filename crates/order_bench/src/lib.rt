// For `bench/run-order`: the order of a book in slices, for programs of other languages that link `liborder_bench.a`. C calls it: so a number and
// slices stand where the crates have a committee and a book, the order is an array with a count, and what is asked of a caller is said of these.
#![tactic(auto)]

ghost use Rattle.std.specs.Prelude.{◌≡◌, ◌≤◌, T, length, get_or};
ghost use Rattle.model.specs.Names.{distinct};
ghost use Rattle.model.specs.Order.{order};
ghost use Rattle.model.specs.Promise.{whole_all};
ghost use Rattle.model.specs.Seat.{fit, padded, seat_limit};
ghost use Rattle.order_bench.specs.Slices.{no_entry, block_of, sliced};

use book::library::Library;
use members::Faults;
use order::read_order;

/// A block: its author and round, where its parents start, and how many there are. C has no slice within another: so numbers say where they are.
#[repr(C)]
#[derive(Clone, Copy, Default)]
pub struct Entry {
    author: u32,
    round: u32,
    start: u32,
    count: u32,
}

// an empty block's, for a name that isn't there
fn entry_of(entries: &[Entry], name: u32) -> Entry
    ensures { result ≡ get_or entries.now name no_entry }
{
    entries.get(name as usize).copied().unwrap_or_default()
}

fn parent_at(all: &[u32], block: Entry, place: u32) -> u32
    ensures { result ≡ get_or (block_of all.now block).parents place 0 }
{
    if place < block.count {
        let at = block.start as usize + place as usize;
        all.get(at).copied().unwrap_or(0)
    } else {
        0
    }
}

/// A book in slices.
#[derive(Drop)]
pub struct Slices<'a> {
    entries: &'a [Entry],
    all: &'a [u32],
}

impl<'a> Library for Slices<'a> {
    ghost what = { λ s. sliced s.entries.now s.all.now };

    fn author(&self, name: u32) -> u32 {
        entry_of(self.entries, name).author
    }

    fn round(&self, name: u32) -> u32 {
        entry_of(self.entries, name).round
    }

    fn parents(&self, name: u32) -> u32 {
        entry_of(self.entries, name).count
    }

    fn parent(&self, name: u32, place: u32) -> u32 {
        parent_at(self.all, entry_of(self.entries, name), place)
    }
}

/// The order of the web, at the front of `out`, and how long it is.
#[unsafe(no_mangle)]
pub extern "C" fn order_read<'a>(
    entries: &'a [Entry],
    all: &'a [u32],
    f: u32,
    web: &[u32],
    out: &mut [u32; 4096],
) -> u32
    requires whole { T (whole_all (sliced entries.now all.now) web.now web.now) }
    requires once { T (distinct web.now) }
    requires fits { T (fit f (sliced entries.now all.now) web.now) }
    requires few { f ≤ 4 }
    requires room { length web.now ≤ seat_limit }
    ensures count { result ≡ length (order f (sliced entries.now all.now) web.now) }
    ensures listed { out.new ≡ padded 4096 (order f (sliced entries.now all.now) web.now) }
{
    let book = Slices { entries, all };
    let faults = Faults::try_from(f).unwrap();
    read_order(&book, faults, web, out)
}
