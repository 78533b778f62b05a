//! Tests of the host with threads, on real threads: which jobs run beside one another and in which
//! order they start, what the reader posts, and whole sessions.
#![tactic(auto)]

#[cfg(test)]
mod flags;
#[cfg(test)]
mod gated;
#[cfg(test)]
mod hosts;
#[cfg(test)]
mod jobs;
#[cfg(test)]
mod pools;
#[cfg(test)]
mod reads;
#[cfg(test)]
mod runs;
#[cfg(test)]
mod sources;
