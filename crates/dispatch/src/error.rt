ghost use Rattle.std.specs.Prelude.{◌≡◌};
ghost use Rattle.dispatch.specs.Errors.{invalid_params_code};

use plain::Text;
use std::error::Error;
use std::fmt;

// What JSON-RPC answers where the params of a request can't be read.
const INVALID_PARAMS: i32 = -32602;

/// Why a request fails, as the client is told.
pub struct LspError {
    pub code: i32,
    pub message: Text,
}

impl Drop for LspError {
    fn drop(self) {
        let LspError {
            code: _,
            message: _,
        } = self;
    }
}

impl LspError {
    pub fn new(code: i32, message: Text) -> LspError
        ensures code { result.code ≡ code }
        ensures message { result.message ≡ message }
    {
        LspError { code, message }
    }
}

impl fmt::Display for LspError {
    ghost use Rattle.std.specs.Prelude.{Some};
    ghost use Rattle.dispatch.specs.Errors.{error_text};

    ghost output = { λ e. Some (error_text e.code e.message) };

    fn fmt<W: fmt::Write>(&self, f: &mut fmt::Formatter<W>) -> fmt::Result {
        let code = self.code;
        let message = self.message.as_str();
        write!(f, "Language Server request failed with {code}. ({message})")
    }
}

impl fmt::Debug for LspError {
    fn fmt<W: fmt::Write>(&self, f: &mut fmt::Formatter<W>) -> fmt::Result {
        fmt::Display::fmt(self, f)
    }
}

impl Error for LspError {}

/// The error of a request whose params can't be read.
pub fn invalid_params_error(message: Text) -> LspError
    ensures code { result.code ≡ invalid_params_code }
    ensures message { result.message ≡ message }
{
    LspError::new(INVALID_PARAMS, message)
}
