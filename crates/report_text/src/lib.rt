//! Reports: a finished run as lines of text and as JSON, and reports that are read back.
#![tactic(auto)]

pub mod data;
mod entries;
mod json_report;
mod json_values;
mod laws;
mod lines;
mod pieces;
mod reading;
mod whole;

pub use json_report::report_json;
pub use laws::{reports_are_told_apart, reports_determine_runs, runs_are_read_back};
pub use reading::{ReportFault, read_report};
pub use whole::report;
