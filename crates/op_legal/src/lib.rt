//! What is answered is legal, and what holds of every legal history. Each function does nothing: its contract is the law.
#![tactic(auto)]

mod answers;
mod numbers;
mod records;
mod rounds;

pub use answers::{answers_keep_legal, beginnings_are_legal, tasks_stay_proper};
pub use numbers::{answers_name_made, entries_name_made};
pub use records::{acts_are_not_refused, entries_have_records};
pub use rounds::{plain_rounds_keep_legal, rounds_keep_legal, steps_act_once};
