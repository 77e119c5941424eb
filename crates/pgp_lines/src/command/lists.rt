//! Lists: those of a fixed number of items, and those of items that are all of one shape.
ghost use Rattle.std.specs.Prelude.{◌≡◌, Option, Some, option_map, IfOk};
ghost use Rattle.serde_json.specs.Data.{Data};
ghost use Rattle.pgp_lines.specs.Value.{view, items_left};
ghost use Rattle.pgp_lines.specs.Shapes.{list_in, list_of, pair_in, triple_in, quadruple_in, two_of, three_of};

use super::value::{Items, Value};
use pgp_ids::Seq;
use std::alloc::{AllocError, Global};

/// What a value can be read as without memory.
pub(super) trait Plain {
    /// What the value is, where it has the shape.
    ghost plain: { Data → Option Self };

    /// What the value is, or `None` where it has another shape or is out of range.
    fn from_value(value: &Value<'_, '_>) -> Option<Self>
        ensures { result ≡ plain (view value.now) };
}

/// What a value can be read as.
pub(super) trait Shape {
    /// What the value is, where it has the shape.
    ghost shape: { Data → Option Self };

    /// What the value is, or `None` where it has another shape or is out of range. An `Err` means out of memory.
    fn read(alloc: Global, value: &Value<'_, '_>) -> Result<Option<Self>, AllocError>
        ensures { IfOk result (λ found. found ≡ shape (view value.now)) };
}

impl<T: Plain> Shape for T {
    ghost shape = { T.plain };

    fn read(_alloc: Global, value: &Value<'_, '_>) -> Result<Option<T>, AllocError> {
        Ok(T::from_value(value))
    }
}

/// A value that stands for what may be absent.
impl<T: Shape + Drop> Shape for Option<T> {
    ghost shape = { λ d. option_map Some (T.shape d) };

    fn read(alloc: Global, value: &Value<'_, '_>) -> Result<Option<Option<T>>, AllocError> {
        Ok(T::read(alloc, value)?.map(Some))
    }
}

/// A list of any length.
impl<T: Shape + Drop> Shape for Seq<T> {
    ghost shape = { list_of T.shape };

    fn read(alloc: Global, value: &Value<'_, '_>) -> Result<Option<Seq<T>>, AllocError> {
        let Some(mut items) = value.items() else {
            return Ok(None);
        };
        let mut found = Seq::new(alloc);
        while let Some(item) = items.next() {
            match T::read(alloc, &item)? {
                Some(item) => found.push(item)?,
                None => return Ok(None),
            }
        }
        Ok(Some(found))
    }
}

/// A list of `low` to `high` items. The bound is judged as the list is walked: a longer one is refused after its first
/// `high` items were read.
pub(super) fn read_list_within<T: Shape + Drop>(
    alloc: Global,
    value: &Value<'_, '_>,
    low: usize,
    high: usize,
) -> Result<Option<Seq<T>>, AllocError>
    ensures { IfOk result (λ found. found ≡ list_in low high T.shape (view value.now)) }
{
    let Some(mut items) = value.items() else {
        return Ok(None);
    };
    let mut found = Seq::new(alloc);
    while let Some(item) = items.next() {
        if found.len() >= high {
            return Ok(None);
        }
        match T::read(alloc, &item)? {
            Some(item) => found.push(item)?,
            None => return Ok(None),
        }
    }
    if found.len() < low {
        return Ok(None);
    }
    Ok(Some(found))
}

/// The two items of a list of two.
pub(super) fn read_pair<'t, 'a>(value: &Value<'t, 'a>) -> Option<(Value<'t, 'a>, Value<'t, 'a>)>
    ensures { option_map (λ p. (view p.0, view p.1)) result ≡ pair_in (view value.now) }
{
    last_two(&mut value.items()?)
}

/// The three items of a list of three.
pub(super) fn read_triple<'t, 'a>(
    value: &Value<'t, 'a>,
) -> Option<(Value<'t, 'a>, Value<'t, 'a>, Value<'t, 'a>)>
    ensures { option_map (λ t. (view t.0, view t.1, view t.2)) result ≡ triple_in (view value.now) }
{
    last_three(&mut value.items()?)
}

/// The four items of a list of four.
pub(super) fn read_quadruple<'t, 'a>(
    value: &Value<'t, 'a>,
) -> Option<(Value<'t, 'a>, Value<'t, 'a>, Value<'t, 'a>, Value<'t, 'a>)>
    ensures { option_map (λ q. (view q.0, view q.1, view q.2, view q.3)) result
        ≡ quadruple_in (view value.now) }
{
    let mut items = value.items()?;
    let a = items.next()?;
    let (b, c, d) = last_three(&mut items)?;
    Some((a, b, c, d))
}

/// The items that are left, where there are two.
fn last_two<'t, 'a>(items: &mut Items<'t, 'a>) -> Option<(Value<'t, 'a>, Value<'t, 'a>)>
    ensures { option_map (λ p. (view p.0, view p.1)) result ≡ two_of (items_left items.old) }
{
    let a = items.next()?;
    let b = items.next()?;
    if items.next().is_some() {
        return None;
    }
    Some((a, b))
}

/// The items that are left, where there are three.
fn last_three<'t, 'a>(
    items: &mut Items<'t, 'a>,
) -> Option<(Value<'t, 'a>, Value<'t, 'a>, Value<'t, 'a>)>
    ensures { option_map (λ t. (view t.0, view t.1, view t.2)) result
        ≡ three_of (items_left items.old) }
{
    let a = items.next()?;
    let (b, c) = last_two(items)?;
    Some((a, b, c))
}
