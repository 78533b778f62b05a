//! Tests of what stands below the trait of the analysis: texts, settings and workspaces. Calls with large contracts go through wrappers that
//! claim nothing, so that the prover carries none of their clauses and a test stays quick to prove.
#![tactic(auto)]

#[cfg(test)]
mod settings_tests;
#[cfg(test)]
mod text_tests;
#[cfg(test)]
mod workspace_tests;
