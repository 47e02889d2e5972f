// What programs that read lines need: words, numbers, hexadecimal, and lines that are held up to a limit.
#![tactic(auto)]

pub mod buffer;
mod chunks;
pub mod hex;
pub mod numbers;
pub mod reader;
#[cfg(test)]
mod tests;
pub mod words;
