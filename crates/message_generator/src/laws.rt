// Laws of the messages.
ghost use Rattle.std.specs.Prelude.{◌≡◌, ◌<◌, ℕ};
ghost use Rattle.message_generator.specs.Stream.{AreReadable, EndByExit, messages_of, request_count};

/// The messages of so many documents are read as what they are, none but the last one is an `exit`, and each document is
/// asked about once.
pub fn clients_can_be_read()
    ensures read { (count : ℕ) → count < 65536 → AreReadable (messages_of count) }
    ensures ended { (count : ℕ) → EndByExit (messages_of count) }
    ensures asked { (count : ℕ) → request_count (messages_of count) ≡ count }
{}
