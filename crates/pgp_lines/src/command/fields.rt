//! The values that a line must or may have.
ghost use Rattle.std.specs.Prelude.{◌≡◌, IfOk};
ghost use Rattle.std.specs.Option.{ok_or};
ghost use Rattle.pgp_lines.specs.Value.{view};
ghost use Rattle.pgp_lines.specs.LineFault.{IsRead, bad_field};
ghost use Rattle.pgp_lines.specs.Shapes.{field, required, optional};

use super::lists::{Plain, Shape};
use super::value::Value;
use pgp_ids::TextFault;
use std::alloc::{AllocError, Global};

/// The value at a key that an object must have, read without memory.
pub(super) fn read_at<T: Plain>(value: &Value<'_, '_>, key: &'static str) -> Option<T>
    ensures { result ≡ field key.now T.plain (view value.now) }
{
    T::from_value(&value.get(key)?)
}

/// The value at a key that an object must have.
pub(super) fn read_field<T: Shape + Drop>(
    alloc: Global,
    value: &Value<'_, '_>,
    key: &'static str,
) -> Result<Option<T>, AllocError>
    ensures { IfOk result (λ found. found ≡ field key.now T.shape (view value.now)) }
{
    match value.get(key) {
        Some(field) => T::read(alloc, &field),
        None => Ok(None),
    }
}

/// The value that a line must have at a key, or `BadField` of the key.
pub(super) fn read_required<T: Shape + Drop>(
    alloc: Global,
    value: &Value<'_, '_>,
    key: &'static str,
) -> Result<T, TextFault>
    ensures { IsRead result (required key.now T.shape (view value.now)) }
{
    let found = read_field(alloc, value, key)?;
    or_bad_field(alloc, found, key)
}

/// The value that a line may have at a key, `absent` where it has none; or `BadField` of the key.
pub(super) fn read_optional<T: Shape + Drop>(
    alloc: Global,
    value: &Value<'_, '_>,
    key: &'static str,
    absent: T,
) -> Result<T, TextFault>
    ensures { IsRead result (optional key.now T.shape absent (view value.now)) }
{
    let Some(field) = value.get(key) else {
        return Ok(absent);
    };
    let found = T::read(alloc, &field)?;
    or_bad_field(alloc, found, key)
}

/// What was found at a key, or `BadField` of the key.
pub(super) fn or_bad_field<T: Drop>(
    alloc: Global,
    found: Option<T>,
    key: &'static str,
) -> Result<T, TextFault>
    ensures { IsRead result (ok_or found (bad_field key.now)) }
{
    match found {
        Some(found) => Ok(found),
        None => Err(TextFault::BadField(String::from_str(alloc, key)?)),
    }
}
