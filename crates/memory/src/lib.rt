// Memory of a stated size, made once, for messages that are kept.
#![tactic(auto, using(crate::proofs::Ends::reading))]

pub mod message_buffer;
