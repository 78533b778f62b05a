// The processing of files that have changed.
use super::asking::agree;
use std::test::Fail;

// Whether files have changed since they were last processed is answered while files are loading too; where none are loading, nothing is left to be processed behind
// a turn.
const PROCESSED: &str = r#"process
open then process
file /w/b.rs a then process
loading then process
loading then file /w/b.rs a then process > changed defer
loading then file /w/b.rs a then process then process
loading then file /w/b.rs a then file /w/b.rs then process
loading then file /w/b.rs a then loaded then process"#;

#[test]
fn changed_files_are_processed(rt: HostRuntime) -> Result<(), Fail> {
    agree(rt.alloc(), PROCESSED)
}
