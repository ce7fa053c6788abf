//! A history that goes across updates: generations, each a database with a line of its states, one
//! after another, and one cursor over all states. It has definitions and laws, and no code:
//! rc_historytext reads and writes such histories.
#![tactic(auto)]

pub mod laws;
