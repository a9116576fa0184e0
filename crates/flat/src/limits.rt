// The fixed numbers of a run (document 01, A run, its lists and its end; When the bench says no).

// The words of a report, of an output.
pub const REPORT: usize = 4;

pub const OUTPUT: usize = 2;

// The most places that the lists may have.
pub const MOST_REPORTS: usize = 64;

pub const MOST_OUTPUTS: usize = 256;

// The most steps that a series of runs may take.
pub const MOST_STEPS: u32 = 1_000_000;
