//! Lists and texts, as C reads and gives them.

ghost use Rattle.std.specs.Prelude.{◌≡◌, Option, length, map};
ghost use Rattle.pgp_c.specs.Each.{IsGiven, each_given};
ghost use Rattle.pgp_c.specs.Exports.{put_into, put_status};
ghost use Rattle.pgp_c.specs.Needed.{flag};

use super::status::Status;
use pgp_ids::Seq;
use std::alloc::Global;

/// A value that C reads as one of the type `C`.
pub trait AsC<C> {
    // What C reads of it.
    ghost as_c: { Self → C };

    /// What C reads of it.
    fn as_c(&self) -> C
        ensures { result ≡ as_c self.now };
}

/// Puts the values, as C reads them, at the start of `room` if they fit, and their number into `count`.
pub fn put_each<T: AsC<C>, C: Copy>(values: &[T], room: &mut [C], count: &mut usize) -> Status
    ensures room { room.new ≡ put_into (map T.as_c values.now) room.old }
    ensures count { count.new ≡ length values.now }
    ensures status { result ≡ put_status (map T.as_c values.now) room.old }
{
    *count = values.len();
    if values.len() > room.len() {
        return Status::RoomTooSmall;
    }
    for (index, value) in values.iter().enumerate() {
        room[index] = value.as_c();
    }
    Status::Done
}

/// Puts a text at the start of `room` if it fits, and its length into `len`.
pub fn put_out(text: &[u8], room: &mut [u8], len: &mut usize) -> Status
    ensures room { room.new ≡ put_into text.now room.old }
    ensures len { len.new ≡ length text.now }
    ensures status { result ≡ put_status text.now room.old }
{
    *len = text.len();
    if text.len() > room.len() {
        return Status::RoomTooSmall;
    }
    room[..text.len()].copy_from_slice(text);
    Status::Done
}

/// 1 where it is true, else 0.
impl AsC<u8> for bool {
    ghost as_c = { flag };

    fn as_c(&self) -> u8 {
        u8::from(*self)
    }
}

/// A value that C gives as one of the type `C`.
pub trait OfC<C>: Sized {
    // What C gives, where each number is in its range.
    ghost of_c: { C → Option Self };

    /// What C gives, or `BadArgument` where a number is out of its range.
    fn of_c(alloc: Global, given: &C) -> Result<Self, Status>
        ensures { IsGiven result (of_c given.now) };
}

/// The values that C gives.
pub fn each_of<T: OfC<C> + Drop, C>(alloc: Global, given: &[C]) -> Result<Seq<T>, Status>
    ensures { IsGiven result (each_given T.of_c given.now) }
{
    let mut values = Seq::new(alloc);
    for it in given {
        values.push(T::of_c(alloc, it)?)?;
    }
    Ok(values)
}
