//! Tests of records, counts, reports and diagnoses as text, and of notes in two files: what no clause of their crates says.
#![tactic(auto)]

#[cfg(test)]
mod counts_file_tests;
#[cfg(test)]
mod diagnosis_tests;
#[cfg(test)]
mod file_notes_tests;
#[cfg(test)]
mod report_reading_tests;
#[cfg(test)]
mod run_report_tests;
#[cfg(test)]
mod schedule_file_tests;
