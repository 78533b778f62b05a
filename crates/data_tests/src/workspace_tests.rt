// Tests of what is decided over workspaces, by public calls: crate graphs, which checks restart, what is told of a session, and how far
// work is. Lines of words tell the cases. No call of a test claims anything.
mod graphs;
mod made;
mod names;
mod restarts;
mod statuses;
