//! The parts of a wallet, each as one legal history has it: names, money, and grants with what was spent under them. One
//! call takes an entry into all of them.
#![tactic(auto)]

mod kinds;
mod parts;
mod spending;

pub use parts::Parts;
