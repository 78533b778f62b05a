// Calls that claim nothing. Each answers none also where memory runs out.
use crate::text_tests::calls::json;
use plain::Json;
use ra_config::{Config, ConfigFault};
use std::alloc::Global;
use std::test::Fail;
use test_support::expect;

/// The settings of a client by its params of `initialize`, with 4 threads.
fn started(alloc: Global, params: &Json) -> Option<Result<Config, ConfigFault>> {
    Config::from_initialize(alloc, params, 4).ok()
}

/// The settings of a client with the root `/w` and these options.
pub(crate) fn settings(alloc: Global, options: &str) -> Option<Config> {
    let front = r#"{"rootUri":"file:///w","initializationOptions":"#;
    let params = [front, options, "}"].concat(alloc).ok()?;
    let params = json(alloc, params.as_str())?;
    let made = started(alloc, &params);
    drop(params);
    made?.ok()
}

/// That a call agrees to each line of a table.
pub(crate) fn all_agree<F: Fn(Global, &str) -> Option<bool>>(
    alloc: Global,
    table: &str,
    mark: &str,
    agrees: F,
) -> Result<(), Fail>
    requires { F.IsAlwaysCallable agrees }
{
    for line in table.split(mark) {
        expect(line, agrees(alloc, line) == Some(true))?;
    }
    Ok(())
}
