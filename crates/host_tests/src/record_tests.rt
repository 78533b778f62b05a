// Tests of `session_record`: what a recorder makes of each kind of event.
mod recorders;
