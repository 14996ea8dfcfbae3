// The sheet on which the room of a script is worked out (order 11): the expirations that stand, by the units that are left of them. A row
// is an entry of three columns. Rows are set from the last place down, and a pass is lent those that stand and no others.
#![tactic(auto)]

pub mod aging;
pub mod passes;
pub mod setting;
pub mod sweeping;
