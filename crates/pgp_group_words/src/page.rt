//! Text as it is put together, and lists in it.

ghost use Rattle.std.specs.Prelude.{◌≡◌, [], map, IfOk, IfSome, OnOk, string_bytes};
ghost use Rattle.pgp_group_words.specs.Names.{cluster_epoch, device_name, member_name, place_name, places_name};
ghost use Rattle.pgp_group_words.specs.Text.{Puts, Sheet, Text, text_of_each, joint as joint_of, listed as listed_names, listed_with};
ghost use Rattle.pgp_group_words.specs.declared.page.Naming.{Naming as TheNaming};

use super::offset::EpochOffset;
use pgp_ids::{Epoch, Member, OsdId, Osds, Place};
use std::alloc::{AllocError, Global};
use std::fmt;
use std::marker::Model;

/// How members and epochs are named.
#[derive(Clone, Copy)]
pub(crate) struct Naming {
    /// Whether a member is named with its slot.
    pub by_place: bool,
    pub offset: EpochOffset,
}

/// Text that is put together, and how members and epochs are named in it.
#[derive(Drop)]
pub(crate) struct Page {
    pub naming: Naming,
    pub text: String,
}

impl Model for Page {
    ghost Value = { Sheet };

    ghost view = { λ page. record { naming = page.naming; text = string_bytes page.text } };
}

/// What is said in words.
pub(crate) trait InWords {
    // The words.
    ghost words: { TheNaming → Self → Text };

    /// Puts the words on the page.
    fn put(&self, page: &mut Page) -> Result<(), AllocError>
        ensures { OnOk result (Puts page.old page.new (words page.old.naming self.now)) };
}

/// A device, as Ceph writes it.
impl InWords for OsdId {
    ghost words = { λ _ osd. device_name osd };

    fn put(&self, page: &mut Page) -> Result<(), AllocError> {
        write!(page, "osd.{}", self.number())
    }
}

/// A member, with its slot where it has one of its own.
impl InWords for Member {
    ghost words = { member_name };

    fn put(&self, page: &mut Page) -> Result<(), AllocError> {
        if page.naming.by_place {
            write!(page, "osd.{}({})", self.osd.number(), self.slot)
        } else {
            write!(page, "osd.{}", self.osd.number())
        }
    }
}

/// A place of up or acting.
impl InWords for Place {
    ghost words = { λ _ place. place_name place };

    fn put(&self, page: &mut Page) -> Result<(), AllocError> {
        match self.osd() {
            Some(osd) => write!(page, "{}", osd.number()),
            None => page.push_str("NONE"),
        }
    }
}

impl Page {
    /// A page without text.
    pub fn new(alloc: Global, naming: Naming) -> Self
        ensures { result ≡ record { naming = naming; text = [] } }
    {
        Page {
            naming,
            text: String::new(alloc),
        }
    }

    /// The number by which it names the epoch.
    pub fn epoch(&self, epoch: Epoch) -> u64
        ensures { result ≡ cluster_epoch self.now.naming.offset epoch }
    {
        self.naming.offset.cluster_epoch(epoch)
    }

    /// What its text takes memory from.
    pub fn alloc(&self) -> Global {
        *self.text.allocator()
    }

    pub fn push_str(&mut self, text: &str) -> Result<(), AllocError>
        ensures { OnOk result (Puts self.old self.new text.now) }
    {
        self.text.push_str(text)
    }

    /// What `write!` and `writeln!` call.
    pub fn write_fmt<D: fmt::Display + Drop>(&mut self, value: D) -> Result<(), AllocError>
        ensures { OnOk result (IfSome (D.output value) (Puts self.old self.new)) }
    {
        self.text.write_fmt(value)
    }

    /// Puts each of the items, with this before it.
    pub fn put_each<T: InWords>(&mut self, before: &str, items: &[T]) -> Result<(), AllocError>
        ensures { OnOk result (Puts self.old self.new
            (text_of_each before.now (T.words self.old.naming) items.now)) }
    {
        for item in items {
            self.push_str(before)?;
            item.put(self)?;
        }
        Ok(())
    }

    /// The item in words.
    pub fn name<T: InWords>(&self, item: &T) -> Result<String, AllocError>
        ensures { IfOk result (λ text. string_bytes text ≡ T.words self.now.naming item.now) }
    {
        let mut page = Page::new(self.alloc(), self.naming);
        item.put(&mut page)?;
        Ok(page.text)
    }

    /// Items in a sentence.
    pub fn list<T: InWords>(&self, items: &[T]) -> Result<String, AllocError>
        ensures { IfOk result (λ text. string_bytes text
            ≡ listed_names (map (T.words self.now.naming) items.now)) }
    {
        self.listed(items, " and ")
    }

    /// Items with commas between them, and `last` in place of a comma before the last one.
    pub fn listed<T: InWords>(&self, items: &[T], last: &str) -> Result<String, AllocError>
        ensures { IfOk result (λ text. string_bytes text
            ≡ listed_with last.now (map (T.words self.now.naming) items.now)) }
    {
        let mut page = Page::new(self.alloc(), self.naming);
        let mut others = items.len();
        for item in items {
            others -= 1;
            item.put(&mut page)?;
            page.push_str(joint(others, last))?;
        }
        Ok(page.text)
    }

    /// The places of up or acting: `[1, NONE, 2]`.
    #[tactic(auto, unfolding(crate::specs::Names::places_name))]
    pub fn places(&self, osds: &Osds) -> Result<String, AllocError>
        ensures { IfOk result (λ text. string_bytes text ≡ places_name osds.now) }
    {
        let names = self.listed(osds.as_slice(), ", ")?;
        format!(in self.alloc(); "[{names}]")
    }
}

/// What stands behind an item that has this many others behind it.
fn joint(others: usize, last: &str) -> &str
    ensures { result.now ≡ joint_of last.now others }
{
    match others {
        0 => "",
        1 => last,
        _ => ", ",
    }
}
