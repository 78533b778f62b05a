//! Tests of the port and of what a host stands on: jobs, hosts that follow a script, peers that are lent, records of sessions, what
//! activities tell, and with real threads the inbox and the revision word.
#![tactic(auto)]

#[cfg(test)]
mod activities_tests;
#[cfg(test)]
mod atomic_revision_tests;
#[cfg(test)]
mod inbox_tests;
#[cfg(test)]
mod port_tests;
#[cfg(test)]
mod record_tests;
