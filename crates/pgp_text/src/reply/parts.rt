//! What an answer is made of, as JSON.
ghost use Rattle.std.specs.Prelude.{◌≡◌, ℕ, [], ◌∷◌, ◌++◌, OnOk};
ghost use Rattle.serde_json.specs.Data.{Data, string, boolean};
ghost use Rattle.pgp_text.specs.Json.{number_data, list_data, option_data};
ghost use Rattle.pgp_text.specs.LineRefusal.{field_if};
ghost use Rattle.pgp_text.specs.Answered.{pair_data, group_data, member_data, place_data, interval_data};
ghost use Rattle.pgp_text.specs.Written.{tokens_of, fields_tokens};

use json::Writer;
use pgp_ids::{Epoch, Member, OsdId, Osds, Past, PgId, Place, Seq, Version};
use std::alloc::{AllocError, Global};

/// By which numbers epochs are written.
pub trait EpochNumbers: Copy {
    // The number of an epoch.
    ghost number: { Self → ℕ → ℕ };

    /// The number by which the epoch is written.
    fn number(self, epoch: Epoch) -> u64
        ensures { result ≡ number self epoch };
}

/// Their own.
impl EpochNumbers for Global {
    ghost number = { λ _ epoch. epoch };

    fn number(self, epoch: Epoch) -> u64 {
        u64::from(epoch.number())
    }
}

/// What is written as one JSON value, where epochs are written by the numbers of `N`.
pub trait Json<N: EpochNumbers> {
    // The value.
    ghost value: { N → Self → Data };

    /// Writes the value. An `Err` means out of memory.
    fn write(&self, out: &mut Writer, numbers: N) -> Result<(), AllocError>
        ensures ok { OnOk result (out.new.tokens ≡ out.old.tokens ++ tokens_of (value numbers self.now)) }
        ensures before { out.new.before ≡ out.old.before };
}

impl<N: EpochNumbers> Json<N> for usize {
    ghost value = { λ _ n. number_data n };

    fn write(&self, out: &mut Writer, _numbers: N) -> Result<(), AllocError> {
        out.u64(*self as u64)
    }
}

impl<N: EpochNumbers> Json<N> for u8 {
    ghost value = { λ _ n. number_data n };

    fn write(&self, out: &mut Writer, _numbers: N) -> Result<(), AllocError> {
        out.u64(u64::from(*self))
    }
}

impl<N: EpochNumbers> Json<N> for bool {
    ghost value = { λ _ b. boolean b };

    fn write(&self, out: &mut Writer, _numbers: N) -> Result<(), AllocError> {
        out.boolean(*self)
    }
}

impl<N: EpochNumbers> Json<N> for &str {
    ghost value = { λ _ text. string text.now };

    fn write(&self, out: &mut Writer, _numbers: N) -> Result<(), AllocError> {
        out.string(self)
    }
}

impl<N: EpochNumbers> Json<N> for Epoch {
    ghost value = { λ numbers epoch. number_data (N.number numbers epoch) };

    fn write(&self, out: &mut Writer, numbers: N) -> Result<(), AllocError> {
        out.u64(numbers.number(*self))
    }
}

impl<N: EpochNumbers> Json<N> for OsdId {
    ghost value = { λ _ osd. number_data osd };

    fn write(&self, out: &mut Writer, _numbers: N) -> Result<(), AllocError> {
        out.u64(u64::from(self.number()))
    }
}

/// Null where it is empty.
impl<N: EpochNumbers> Json<N> for Place {
    ghost value = { λ _ place. place_data place };

    fn write(&self, out: &mut Writer, numbers: N) -> Result<(), AllocError> {
        self.osd().write(out, numbers)
    }
}

/// Null where there is nothing.
impl<N: EpochNumbers, T: Json<N>> Json<N> for Option<T> {
    ghost value = { λ numbers. option_data (T.value numbers) };

    fn write(&self, out: &mut Writer, numbers: N) -> Result<(), AllocError> {
        match self {
            Some(value) => value.write(out, numbers),
            None => out.null(),
        }
    }
}

impl<N: EpochNumbers, T: Json<N>> Json<N> for Seq<T> {
    ghost value = { λ numbers. list_data (T.value numbers) };

    fn write(&self, out: &mut Writer, numbers: N) -> Result<(), AllocError> {
        write_list(out, numbers, self.as_slice())
    }
}

/// The places in order, null for an empty one.
impl<N: EpochNumbers> Json<N> for Osds {
    ghost value = { λ _ osds. list_data place_data osds };

    fn write(&self, out: &mut Writer, numbers: N) -> Result<(), AllocError> {
        write_list(out, numbers, self.as_slice())
    }
}

/// Writes the items of a list in order.
fn write_list<N: EpochNumbers, T: Json<N>>(
    out: &mut Writer,
    numbers: N,
    items: &[T],
) -> Result<(), AllocError>
    ensures ok { OnOk result
        (out.new.tokens ≡ out.old.tokens ++ tokens_of (list_data (T.value numbers) items.now)) }
    ensures before { out.new.before ≡ out.old.before }
{
    out.begin_array()?;
    for item in items {
        item.write(out, numbers)?;
    }
    out.end_array()
}

/// `[pool, pg]`.
impl<N: EpochNumbers> Json<N> for PgId {
    ghost value = { λ _ pg. group_data pg };

    fn write(&self, out: &mut Writer, _numbers: N) -> Result<(), AllocError> {
        write_pair(out, u64::from(self.pool.number()), u64::from(self.pg))
    }
}

/// `[device, slot]`.
impl<N: EpochNumbers> Json<N> for Member {
    ghost value = { λ _ member. member_data member };

    fn write(&self, out: &mut Writer, _numbers: N) -> Result<(), AllocError> {
        write_pair(out, u64::from(self.osd.number()), u64::from(self.slot))
    }
}

/// `[epoch, v]`.
impl<N: EpochNumbers> Json<N> for Version {
    ghost value = { λ numbers version. pair_data (N.number numbers version.epoch) version.v };

    fn write(&self, out: &mut Writer, numbers: N) -> Result<(), AllocError> {
        write_pair(out, numbers.number(self.epoch), u64::from(self.v))
    }
}

/// Writes a list of two numbers.
pub fn write_pair(out: &mut Writer, a: u64, b: u64) -> Result<(), AllocError>
    ensures ok { OnOk result (out.new.tokens ≡ out.old.tokens ++ tokens_of (pair_data a b)) }
    ensures before { out.new.before ≡ out.old.before }
{
    out.begin_array()?;
    out.u64(a)?;
    out.u64(b)?;
    out.end_array()
}

/// Writes a field of the object that is open.
#[tactic(auto, unfolding(crate::specs::Written::fields_tokens))]
pub fn write_field<N: EpochNumbers, T: Json<N>>(
    out: &mut Writer,
    numbers: N,
    key: &str,
    value: &T,
) -> Result<(), AllocError>
    ensures ok { OnOk result
        (out.new.tokens ≡ out.old.tokens ++ fields_tokens ((key.now, T.value numbers value.now) ∷ [])) }
    ensures before { out.new.before ≡ out.old.before }
{
    out.key(key)?;
    value.write(out, numbers)
}

/// Writes a field of the object that is open, where there is a value for it.
#[tactic(auto, unfolding(crate::specs::Written::fields_tokens))]
pub(super) fn write_field_if<N: EpochNumbers, T: Json<N>>(
    out: &mut Writer,
    numbers: N,
    key: &str,
    value: &Option<T>,
) -> Result<(), AllocError>
    ensures ok { OnOk result
        (out.new.tokens ≡ out.old.tokens ++ fields_tokens (field_if key.now (T.value numbers) value.now)) }
    ensures before { out.new.before ≡ out.old.before }
{
    match value {
        Some(value) => write_field(out, numbers, key, value),
        None => Ok(()),
    }
}

/// A past interval.
impl Json<Global> for Past {
    ghost value = { λ _ x. interval_data x };

    fn write(&self, out: &mut Writer, alloc: Global) -> Result<(), AllocError> {
        let members = &self.members;
        out.begin_object()?;
        write_field(out, alloc, "acting", &members.acting)?;
        write_field(out, alloc, "acting_primary", &members.acting_primary)?;
        write_field(out, alloc, "first", &self.first)?;
        write_field(out, alloc, "last", &self.last)?;
        write_field(out, alloc, "min_size", &members.min_size)?;
        write_field(out, alloc, "rw", &self.rw)?;
        write_field(out, alloc, "size", &members.size)?;
        write_field(out, alloc, "up", &members.up)?;
        write_field(out, alloc, "up_primary", &members.up_primary)?;
        out.end_object()
    }
}
