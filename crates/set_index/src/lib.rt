// What a table needs to know of a set again and again, found once: its checkpoints, the statements of each class, and lists of CHECKs and of jumps.
#![tactic(auto)]

pub mod checks;
mod classes;
pub mod jumps;
pub mod lists;
pub mod members;
mod numbers;
pub mod points;

pub use classes::{is_conditional, is_plain, loads, rests};
