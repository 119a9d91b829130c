//! The tests of the outside: what no clause of it says.
#![tactic(auto)]

#[cfg(test)]
mod answering;
#[cfg(test)]
mod clients;
#[cfg(test)]
mod port_tests;
#[cfg(test)]
mod rx_io_tests;
#[cfg(test)]
mod tcp_port_tests;
