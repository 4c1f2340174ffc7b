//! The run that a command line asks for, and the lines that are printed.
pub(crate) mod failure;
mod output_line;
mod rows;
pub(crate) mod run_past_faults;
pub(crate) mod runner;
pub(crate) mod whole_input;
