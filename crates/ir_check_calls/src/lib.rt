//! The rule about what is called: it is a function whose types are the call's, and a name with a meaning is declared as it has to be.
#![tactic(auto)]

mod called;
mod check;
mod declared;
mod types;

pub use check::unknown_callee;
