ghost use Rattle.std.specs.Prelude.{◌≡◌, ◌++◌, ◌∷◌, true, false, nat_eq, slice_index, MatchOption};
ghost use Rattle.std.specs.List.{starts_with, list_all, list_any, before_last, after_last};
ghost use Rattle.std.specs.Option.{option_copied};
ghost use Rattle.docs_vfs.specs.Paths.{is_slash, is_dot, is_dots, has_nul, is_segment, is_path, parts, extension_of, begins_with_folder};

/// Whether bytes are `.` or `..`.
fn are_dots(bytes: &[u8]) -> bool
    ensures { result ≡ is_dots bytes.now }
{
    bytes == b".".as_slice() || bytes == b"..".as_slice()
}

/// Whether bytes hold a NUL.
fn have_nul(bytes: &[u8]) -> bool
    ensures { result ≡ has_nul bytes.now }
{
    bytes.iter().any(|b| *b == 0)
}

/// Whether bytes may stand between two slashes of a path.
fn are_segment(bytes: &[u8]) -> bool
    ensures { result ≡ is_segment bytes.now }
{
    !bytes.is_empty() && !are_dots(bytes) && !have_nul(bytes)
}

/// Whether a text holds a slash.
pub(crate) fn has_slash_text(text: &str) -> bool
    ensures { result ≡ list_any is_slash text.now }
{
    text.as_bytes().iter().any(|b| *b == b'/')
}

/// Whether a text may stand between two slashes of a path.
pub(crate) fn is_segment_text(text: &str) -> bool
    ensures { result ≡ is_segment text.now }
{
    are_segment(text.as_bytes())
}

/// Whether bytes are segments that are parted by slashes.
fn are_segments(bytes: &[u8]) -> bool
    ensures { result ≡ list_all is_segment (parts bytes.now) }
{
    bytes.split(|b| *b == b'/').all(|part| are_segment(part))
}

/// Whether a text is a path.
pub(crate) fn is_path_text(text: &str) -> bool
    ensures { result ≡ is_path text.now }
{
    match text.strip_prefix('/') {
        None => false,
        Some(rest) => rest.is_empty() || are_segments(rest.as_bytes()),
    }
}

/// Whether a text begins with another.
fn begins_with(text: &str, front: &str) -> bool
    ensures { result ≡ starts_with nat_eq text.now front.now }
{
    text.starts_with(front)
}

/// Whether a slash stands at a place of a text.
fn has_slash_at(text: &str, at: usize) -> bool
    ensures { result ≡ is_slash (slice_index text.now at) }
{
    match text.as_bytes().get(at) {
        Some(b) => *b == b'/',
        None => false,
    }
}

/// Whether a text begins with another, and then comes a slash or the end, or the other is `/`.
pub(crate) fn begins_with_folder_text(text: &str, base: &str) -> bool
    ensures { result ≡ begins_with_folder base.now text.now }
{
    begins_with(text, base)
        && (base.len() == 1 || text.len() == base.len() || has_slash_at(text, base.len()))
}

/// The folder and the name of a path that isn't `/`.
pub(crate) fn cut_at_last_slash(text: &str) -> Option<(&str, &str)>
    ensures { MatchOption result (list_any is_slash text.now ≡ false)
        (λ x. (text.now ≡ x.0.now ++ 47 ∷ x.1.now) × (list_any is_slash x.1.now ≡ false)
        × (x.0.now ≡ before_last is_slash text.now) × (x.1.now ≡ after_last is_slash text.now)) }
{
    text.rsplit_once('/')
}

/// What stands before and after the last dot.
fn cut_at_last_dot(text: &str) -> Option<(&str, &str)>
    ensures { MatchOption result (list_any is_dot text.now ≡ false)
        (λ x. (list_any is_dot text.now ≡ true) × (x.0.now ≡ before_last is_dot text.now)
        × (x.1.now ≡ after_last is_dot text.now)) }
{
    text.rsplit_once('.')
}

/// What follows the last dot that isn't the first byte.
pub(crate) fn extension_text(name: &str) -> Option<&str>
    ensures { option_copied result ≡ extension_of name.now }
{
    let (front, extension) = cut_at_last_dot(name)?;
    if front.is_empty() {
        None
    } else {
        Some(extension)
    }
}
