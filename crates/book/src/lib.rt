// Blocks by their names. The calls of a seat and the order are generic over the trait of books; the book of this crate keeps its blocks in
// lent memory.
#![tactic(auto)]

mod block;
mod book;
mod entry;
mod lent;
pub mod library;
mod refusal;
mod tables;
#[cfg(test)]
mod tests;
mod view;

pub use block::Block;
pub use book::Book;
pub use entry::{Entry, MAX_BLOCKS, MAX_LOAD, MAX_PARENTS};
pub use refusal::Refusal;
pub use view::View;
