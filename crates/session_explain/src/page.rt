// Text that is written word by word and line by line.
use plain::{Json, NoMemory, Text};
use session::SessionError;
use std::alloc::Global;

/// Lines, of which the last may not be ended.
#[derive(Drop)]
pub(crate) struct Page {
    alloc: Global,
    bytes: Vec<u8>,
}

impl Page {
    pub fn new(alloc: Global) -> Page {
        Page {
            alloc,
            bytes: Vec::new(alloc),
        }
    }

    pub fn as_slice(&self) -> &[u8] {
        &self.bytes
    }

    /// Adds all that another has.
    pub fn append(&mut self, other: &[u8]) -> Result<(), NoMemory> {
        self.bytes.extend_from_slice(other)?;
        Ok(())
    }

    /// The first word of a line.
    pub fn begin(&mut self, word: &str) -> Result<(), NoMemory> {
        self.append(word.as_bytes())
    }

    /// A word behind a blank.
    pub fn word(&mut self, word: &str) -> Result<(), NoMemory> {
        self.append(b" ")?;
        self.append(word.as_bytes())
    }

    pub fn number(&mut self, number: u64) -> Result<(), NoMemory> {
        self.json(&Json::from_u64(number))
    }

    /// A JSON value in its compact form, behind a blank. One that isn't plain has none.
    pub fn json(&mut self, value: &Json) -> Result<(), NoMemory> {
        if !value.is_plain() {
            return self.word("not-plain");
        }
        self.append(b" ")?;
        value.write(&mut self.bytes)
    }

    /// A text as JSON has it, behind a blank.
    pub fn text(&mut self, text: &str) -> Result<(), NoMemory> {
        let value = Json::from_text(Text::from_str(self.alloc, text)?);
        self.json(&value)
    }

    pub fn truth(&mut self, truth: bool) -> Result<(), NoMemory> {
        self.json(&Json::from_bool(truth))
    }

    pub fn end(&mut self) -> Result<(), NoMemory> {
        self.append(b"\n")
    }
}

/// The last line, by why a session ended otherwise than by `exit`.
pub(crate) fn name_of(error: SessionError) -> &'static str {
    match error {
        SessionError::ClientExited => "end client-exited",
        SessionError::BadFrame { .. } => "end bad-frame",
        SessionError::BadMessage { .. } => "end bad-message",
        SessionError::HostFault => "end host-fault",
        SessionError::WriteFault => "end write-fault",
        SessionError::Exhausted { .. } => "end exhausted",
        SessionError::NoMemory => "end no-memory",
    }
}
