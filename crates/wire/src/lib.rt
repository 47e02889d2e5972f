// Messages and their bytes.
#![tactic(auto)]

pub fn placeholder() -> u8 {
    0
}
