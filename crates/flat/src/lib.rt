// What a run works on: the flat form of the registers, and its fixed numbers.
#![tactic(auto)]

pub mod limits; // limits.rt: the sizes of a run
pub mod registers; // registers.rt: registers as plain words
