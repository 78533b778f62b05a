// Crate data behind a switch: it goes into the world, at once or with its macros.
use super::asking::agree;
use std::test::Fail;

// Where there were no workspaces before, or no macros are wanted, crate data goes into the world at once; else it waits for its macros,
// however their load ends. A crate whose root isn't known is left out.
const GRAPHS: &str = r#"start then graph > no crates
start then crate /w/Cargo.toml /w/src/lib.rs then graph > no crates
read /w/src/lib.rs a then start then crate /w/Cargo.toml /w/src/lib.rs then graph > one, not yet built
read /w/src/lib.rs a then start then crate /w/Cargo.toml /w/src/lib.rs then builds second then graph > one, not yet built
read /w/src/lib.rs a then start then crate /w/Cargo.toml /w/src/lib.rs then builds second then macros third then graph > one, failed
read /w/src/lib.rs a then start then crate /w/Cargo.toml /w/src/lib.rs then builds second then stopped third then graph > one, failed
read /w/src/lib.rs a then start then tell workspace/didChangeConfiguration {} then answer [{"procMacro":{"enable":false}}] then crate /w/Cargo.toml /w/src/lib.rs then builds second then graph > one, disabled"#;

#[test]
fn crate_data_goes_into_the_world(rt: HostRuntime) -> Result<(), Fail> {
    agree(rt.alloc(), GRAPHS)
}
