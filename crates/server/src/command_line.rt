// The words of the command line.
ghost use Rattle.std.specs.Prelude.{◌≡◌};
ghost use Rattle.server.specs.CommandLine.{purpose_of, purpose_of_texts, texts_of};

use plain::{Items, Text};

/// The words after the program's name.
#[derive(Drop)]
pub enum Words {
    Texts(Items<Text>),
    /// A word is no text.
    NotText,
}

/// What the words of a command line are for.
#[derive(Clone, Copy)]
pub(crate) enum Purpose {
    Help,
    Version,
    /// A record is written out for people.
    Explain,
    Serve,
    Unreadable,
}

fn purpose_of_texts(texts: &[Text]) -> Purpose
    ensures { result ≡ purpose_of_texts texts.now }
{
    match texts {
        [word] if word.as_str() == "--help" => Purpose::Help,
        [word] if word.as_str() == "--version" => Purpose::Version,
        [word] if word.as_str() == "--explain" => Purpose::Explain,
        _ => Purpose::Serve,
    }
}

impl Words {
    /// The words, or none where some word is no text.
    pub(crate) fn texts(&self) -> &[Text]
        ensures { result.now ≡ texts_of self.now }
    {
        match self {
            Words::Texts(texts) => texts.as_slice(),
            Words::NotText => &[],
        }
    }
}

/// What words are for.
pub(crate) fn purpose_of(words: &Words) -> Purpose
    ensures { result ≡ purpose_of words.now }
{
    match words {
        Words::Texts(texts) => purpose_of_texts(texts.as_slice()),
        Words::NotText => Purpose::Unreadable,
    }
}
