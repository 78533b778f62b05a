// Tests of runs of a session, by scripts.
mod failures;
mod scripts;
