// Tests of the revision word, with real threads.
mod tests;
