// Errors as they are shown.
use analysis_host::Outcome;
use dispatch::{HandlerCancelledError, LspError, invalid_params_error};
use plain::Text;
use requests::malformed;
use std::alloc::Global;
use std::fmt::Display;
use std::test::Fail;
use test_support::expect_text;

// That a value is shown so.
fn shows<T: Display>(alloc: Global, value: &T, text: &str) -> Result<(), Fail> {
    let shown = format!(in alloc; "{value}")?;
    expect_text("a value", shown.as_str(), text)
}

fn message_of(outcome: &Outcome) -> &str {
    match outcome {
        Outcome::Fault {
            code: None,
            message,
        } => message.as_str(),
        _ => "another outcome",
    }
}

#[test]
fn errors_are_shown(rt: HostRuntime) -> Result<(), Fail> {
    let error = invalid_params_error(Text::from_str(rt.alloc(), "a) (b")?);
    let text = "Language Server request failed with -32602. (a) (b)";
    shows(rt.alloc(), &error, text)?;
    let error = LspError::new(0, Text::new(rt.alloc()));
    shows(
        rt.alloc(),
        &error,
        "Language Server request failed with 0. ()",
    )?;
    shows(rt.alloc(), &HandlerCancelledError { saw: 9 }, "Cancelled")?;
    let outcome = malformed(rt.alloc())?;
    expect_text("malformed params", message_of(&outcome), "invalid params")
}
