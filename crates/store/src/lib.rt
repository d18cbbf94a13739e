// What a server serves from: the messages of a session, kept by number and by place.
#![tactic(auto)]

pub mod live;
pub mod store;
