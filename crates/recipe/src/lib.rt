// The type of a fetch's answer. What a record is and what the recipe calls mean stands in specs/, in the order of document 02, ask 8; no code is here.
#![tactic(auto)]

// A recipe that was fetched: the length of its record, or a refusal's number.
#[derive(Clone, Copy)]
pub enum Fetched {
    Is(u64),
    Refused(u8),
}
