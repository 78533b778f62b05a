ghost use Rattle.std.specs.Prelude.{◌≡◌, ◌==◌};
ghost use Rattle.reload.specs.Names.{underscored, is_alike};

fn underscored(byte: u8) -> u8
    ensures { result ≡ underscored byte }
{
    if byte == b'-' { b'_' } else { byte }
}

fn are_alike(one: &[u8], two: &[u8]) -> bool
    ensures { result ≡ is_alike one.now two.now }
{
    if one.len() != two.len() {
        return false;
    }
    for (x, y) in one.iter().zip(two) {
        if underscored(*x) != underscored(*y) {
            return false;
        }
    }
    true
}

/// Whether the texts are equal, where `-` and `_` are alike.
pub fn eq_ignore_underscore(s1: &str, s2: &str) -> bool
    ensures { result ≡ is_alike s1.now s2.now }
{
    are_alike(s1.as_bytes(), s2.as_bytes())
}
