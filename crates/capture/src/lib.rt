// A capture: datagrams in the order in which they came, each a record of a two-byte little-endian length and that many bytes.
#![tactic(auto)]

pub mod intake;
pub mod records;
#[cfg(test)]
mod tests;
