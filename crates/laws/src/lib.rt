//! The laws of a bench: agreement, the leader's block and the time in a round, over every run of its calls.
#![tactic(auto)]

mod every_run;
mod in_time;
mod one_seat;

pub use every_run::no_run_splits_the_record;
pub use in_time::every_run_is_in_time;
pub use one_seat::one_seat_run_finalizes;
