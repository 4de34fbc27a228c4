//! What readers who stay are answered while one owner writes: definitions over the plain journal, and laws.
#![tactic(auto)]

pub mod answer_laws;
pub mod front_laws;
pub mod reply_laws;
pub mod seat_laws;
pub mod session_laws;
