// A whole committee, played from a script.
#![tactic(auto)]

mod act;
mod asked;
mod command;
mod committee;
mod glossary;
mod not_done;
mod notes;
mod playing;
mod script;
mod seats;
#[cfg(test)]
mod tests;

pub use act::Act;
pub use asked::{NoCommittee, faults_of};
pub use command::{BlockLine, Command, NotACommand};
pub use committee::Committee;
pub use not_done::NotDone;
pub use playing::play;
pub use script::{Player, Reply};
