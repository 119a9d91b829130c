//! Tests of links, of the trunk's lines, of messages, items and replies: what no clause of their crates says.
#![tactic(auto)]

#[cfg(test)]
mod framing_rows;
#[cfg(test)]
mod link_rows;
#[cfg(test)]
mod reply_ledger_tests;
#[cfg(test)]
mod row_tests;
#[cfg(test)]
mod rows;
#[cfg(test)]
mod text_rows;
#[cfg(test)]
mod text_tests;
