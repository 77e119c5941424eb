//! Objects whose keys are known.
ghost use Rattle.std.specs.Prelude.{◌≡◌, map, option_map};
ghost use Rattle.pgp_lines.specs.Shapes.{least_with, is_key, unknown_key_in, has_only};
ghost use Rattle.pgp_lines.specs.Value.{view};

use super::trail::Wanted;
use super::value::Value;

/// The least key, in byte order, of an object that is none of `keys`.
pub(super) fn unknown_key<'a>(value: &Value<'_, 'a>, keys: &[&str]) -> Option<&'a str>
    ensures { option_map (λ key. key.now) result
        ≡ unknown_key_in (map (λ k. k.now) keys.now) (view value.now) }
{
    let mut members = value.members()?;
    let mut least = None;
    while let Some((key, _)) = members.next() {
        if !is_one_of(key, keys) {
            least = Some(least_with(key, least));
        }
    }
    least
}

/// The lesser of a key and the least so far, if there is one.
fn least_with<'a>(key: &'a str, least: Option<&'a str>) -> &'a str
    ensures { result.now ≡ least_with key.now (option_map (λ k. k.now) least.entry) }
{
    let Some(least) = least else {
        return key;
    };
    if key <= least { key } else { least }
}

fn is_one_of(key: &str, keys: &[&str]) -> bool
    ensures { result ≡ is_key (map (λ k. k.now) keys.now) key.now }
{
    keys.contains(&key)
}

/// Whether an object has no keys but these.
pub(super) fn has_only(value: &Value<'_, '_>, keys: &'static [&'static str]) -> bool
    ensures { result ≡ has_only (map (λ k. k.now) keys.now) (view value.now) }
{
    value.look(Wanted::Keys(keys));
    unknown_key(value, keys).is_none()
}
