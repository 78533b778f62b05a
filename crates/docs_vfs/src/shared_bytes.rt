// What a table keeps of a file's bytes.
ghost use Rattle.std.specs.Prelude.{◌≡◌, IfOk, IfSome, if◌then◌else◌, Some, None};
ghost use Rattle.std.specs.Str.{is_utf8};
ghost use Rattle.docs_vfs.specs.Held.{held_bytes};

use crate::arc_bytes::ArcBytes;
use plain::{ArcText, Bytes, ExactClone, Text};
use std::alloc::{AllocError, Global};
use std::marker::Model;
use text_core::SharedText;

/// Bytes, or a text with the index of its lines, which its clones share.
#[derive(Drop)]
pub enum Held {
    Bytes(ArcBytes),
    Text(SharedText),
}

/// Bytes whose clones share them. They may be the bytes of a text that others share.
pub struct SharedBytes {
    held: Held,
}

impl Drop for SharedBytes {
    fn drop(self) {
        let SharedBytes { held: _ } = self;
    }
}

impl Model for SharedBytes {
    ghost use Rattle.std.specs.Prelude.{ℕ, List};
    ghost use Rattle.docs_vfs.specs.Held.{held_bytes};

    ghost Value = { List ℕ };

    ghost view = { λ b. held_bytes b.held };
}

impl SharedBytes {
    pub fn new(alloc: Global, bytes: Bytes) -> Result<SharedBytes, AllocError>
        ensures { IfOk result (λ shared. shared ≡ bytes) }
    {
        Ok(SharedBytes {
            held: Held::Bytes(ArcBytes::new(alloc, bytes)?),
        })
    }

    /// The bytes of a text, which is shared.
    pub fn of_text(text: SharedText) -> SharedBytes
        ensures { result ≡ text }
    {
        SharedBytes {
            held: Held::Text(text),
        }
    }

    pub fn as_slice(&self) -> &[u8]
        ensures { result.now ≡ self.now }
    {
        match &self.held {
            Held::Bytes(bytes) => bytes.as_slice(),
            Held::Text(text) => text.as_str().as_bytes(),
        }
    }

    /// The text that the bytes were made of, if they were made of one.
    pub fn text(&self) -> Option<&SharedText>
        ensures { IfSome result (λ text. text.now ≡ self.now) }
    {
        match &self.held {
            Held::Bytes(_) => None,
            Held::Text(text) => Some(text),
        }
    }

    /// The text that the bytes are, or none exactly where they are not UTF-8. It is shared where a text is held.
    #[tactic(auto, using(crate::proofs::HeldLemmas::utf8_some))]
    pub fn to_text(&self, alloc: Global) -> Result<Option<ArcText>, AllocError>
        ensures { IfOk result (λ found. found ≡ (if is_utf8 self.now then Some self.now else None)) }
    {
        match &self.held {
            Held::Bytes(bytes) => text_of(alloc, bytes.as_slice()),
            Held::Text(text) => {
                let _is_utf8 = text.as_str();
                Ok(Some(text.share_text()?))
            }
        }
    }
}

/// The text that bytes are.
#[tactic(auto, using(crate::proofs::HeldLemmas::utf8_some, crate::proofs::HeldLemmas::utf8_none))]
fn text_of(alloc: Global, bytes: &[u8]) -> Result<Option<ArcText>, AllocError>
    ensures { IfOk result (λ found. found ≡ (if is_utf8 bytes.now then Some bytes.now else None)) }
{
    match str::from_utf8(bytes) {
        Ok(text) => Ok(Some(ArcText::new(alloc, Text::from_str(alloc, text)?)?)),
        Err(_) => Ok(None),
    }
}

impl Clone for SharedBytes {
    ghost is_clone = { λ bytes copy. copy ≡ bytes };

    fn clone(&self) -> Result<SharedBytes, AllocError> {
        let held = match &self.held {
            Held::Bytes(bytes) => Held::Bytes(bytes.clone()?),
            Held::Text(text) => Held::Text(text.clone()?),
        };
        Ok(SharedBytes { held })
    }
}

impl ExactClone for SharedBytes {
    ghost copies = { λ x y h. h };
}
