// Tests of `activities`: what is told of checks, of a run of tests, of discoveries and of priming. Lines of words tell the acts, and
// what is told of each.
mod acts;
mod tellings;
mod tests;
