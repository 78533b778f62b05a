// Tests of `session_state`: what a session does for each request, notification and result, by its public calls. Lines
// of words tell the events, and what comes of the last of them. The calls stand in `turns`, in functions that claim nothing, so that
// the prover carries none of their clauses; what owns a session and goes over its events is generic, so that it spells out none of it.
pub(crate) mod asking;
mod calls;
mod causes;
mod clients;
mod counters;
mod crates;
mod events;
mod processing;
mod roots;
mod told;
mod turns;
mod words;
