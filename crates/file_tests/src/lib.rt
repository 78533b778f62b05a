//! Tests of files and their tables, of diagnostics, of the server's own messages and of snapshots, of what no stored session shows: one
//! call of each kind that ends well, JSON that nothing sends yet, and ledgers of steps. The calls go through wrappers that claim nothing,
//! so that the prover carries none of their clauses, and the few functions that own a snapshot or a host have one way out.
#![tactic(auto)]

#[cfg(test)]
mod answers;
#[cfg(test)]
mod board;
#[cfg(test)]
mod calls;
#[cfg(test)]
mod ends;
#[cfg(test)]
mod forms;
#[cfg(test)]
mod fractions;
#[cfg(test)]
mod ledgers;
#[cfg(test)]
mod messages;
#[cfg(test)]
mod snapshots;
#[cfg(test)]
mod tables;
