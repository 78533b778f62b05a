// The words that the program knows.
ghost use Rattle.std.specs.Prelude.{◌≡◌, IfSome, ◌≤◌};
ghost use Rattle.server.specs.Words.{asked_by, asked_by_two, asked_by_word, begins_above_zero, count_in, most_documents, number_in};

use plain::Text;

/// How many documents a session is generated over, at most.
const MOST_DOCUMENTS: u16 = 20_000;

/// What words ask for.
#[derive(Clone, Copy, Debug, PartialEq, Eq)]
pub enum Asked {
    /// One session, which begins without a handshake.
    Session,
    /// A handshake, and the session that it begins.
    Lsp,
    /// One session, of which the record is written.
    Record,
    /// The session of a record.
    Replay,
    /// A session over the messages of so many generated documents, at most 20,000, and its summary.
    Generate { count: u16 },
    Unknown,
}

fn asked_by_word(word: &str) -> Asked
    ensures { result ≡ asked_by_word word.now }
{
    if word == "session" {
        Asked::Session
    } else if word == "lsp" {
        Asked::Lsp
    } else if word == "record" {
        Asked::Record
    } else if word == "replay" {
        Asked::Replay
    } else {
        Asked::Unknown
    }
}

/// Whether the first character is a digit other than 0.
fn begins_above_zero(text: &str) -> bool
    ensures { result ≡ begins_above_zero text.now }
{
    match text.as_bytes() {
        [first, ..] => b'1' <= *first && *first <= b'9',
        [] => false,
    }
}

/// The number of 16 bits that a text spells.
fn number_in(text: &str) -> Option<u16>
    ensures { result ≡ number_in text.now }
{
    text.parse::<u16>().ok()
}

/// How many documents a text asks for: a decimal number from 1 to 20,000, without a zero in front.
fn count_in(text: &str) -> Option<u16>
    ensures { result ≡ count_in text.now }
{
    if !begins_above_zero(text) {
        return None;
    }
    match number_in(text) {
        Some(count) if count <= MOST_DOCUMENTS => Some(count),
        _ => None,
    }
}

fn asked_by_two(word: &str, number: &str) -> Asked
    ensures { result ≡ asked_by_two word.now number.now }
{
    if word != "generate" {
        return Asked::Unknown;
    }
    match count_in(number) {
        Some(count) => Asked::Generate { count },
        None => Asked::Unknown,
    }
}

/// What words ask for.
pub fn asked_by(words: &[Text]) -> Asked
    ensures { result ≡ asked_by words.now }
{
    match words {
        [word] => asked_by_word(word.as_str()),
        [word, number] => asked_by_two(word.as_str(), number.as_str()),
        _ => Asked::Unknown,
    }
}
