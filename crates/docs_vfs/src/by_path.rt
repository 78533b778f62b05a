use crate::VfsPath;
use plain::ByText;

/// Values by path, which contracts see as a finite map.
pub type ByPath<V> = ByText<VfsPath, V>;
