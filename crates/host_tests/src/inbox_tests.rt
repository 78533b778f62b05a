// Tests of the inbox, with real threads.
mod tests;
