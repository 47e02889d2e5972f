// What a member's program does with a line, and the laws of it.
#![tactic(auto)]

pub fn placeholder() -> u8 {
    0
}
