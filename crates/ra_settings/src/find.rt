ghost use Rattle.std.specs.Prelude.{◌≡◌, option_map, map};
ghost use Rattle.serde_json.specs.View.{view};
ghost use Rattle.ra_settings.specs.Find.{find_at};

use serde_json::Value;

/// The value at a path of names.
pub fn find_at<'v>(value: &'v Value, path: &[&str]) -> Option<&'v Value>
    ensures { option_map (λ v. view v.now) result
        ≡ find_at (map (λ p. p.now) path.now) (view value.now) }
{
    match path {
        [] => Some(value),
        [first, rest @ ..] => match value.get(*first) {
            Some(inner) => find_at(inner, rest),
            None => None,
        },
    }
}
