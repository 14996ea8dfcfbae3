// A cable plan on the pool (order 13 of document 02): a turn, a step, the run from fresh, and what is printed of it.
#![tactic(auto)]

pub mod output;
mod run;
mod site;
mod turns;
