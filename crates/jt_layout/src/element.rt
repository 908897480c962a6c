//! Values that stand in lists.

ghost use Rattle.std.specs.Prelude.{◌≡◌, ◌<◌, ◌≤◌, ◌++◌, ◌↔◌, length, IsTrue, OnOk};
ghost use Rattle.std.specs.List.{flat_map, AllByRecursion};
ghost use Rattle.std.specs.Io.{StartsWith};
ghost use Rattle.jt_value.specs.Octets.{AreOctets};
ghost use Rattle.jt_layout.specs.Layout.{Part, times, to_the_end};
ghost use Rattle.jt_layout.specs.Reading.{Gives, Passes};

use crate::reader::Reader;
use crate::writer::Writer;
use jt_value::{CodecError, Memory, Seq};
use std::alloc::Global;

/// For so many elements of a list at most room is made at once, whatever its count says (this project's own).
const MOST_AT_ONCE: usize = 64;

/// A value that stands in lists, with its layout.
pub trait Element: Drop {
    ghost layout: { Part Self };

    /// Whether the layout has octets for the value.
    fn fits_in_list(&self) -> bool
        ensures { IsTrue result ↔ layout.Fits self.now };

    /// Reads the value that comes next.
    fn read(alloc: Global, reader: &mut Reader<'_>) -> Result<Self, CodecError>
        ensures value { Gives (λ element. (element, reader.new.place)) result
            (layout.read reader.old.octets reader.old.place) }
        ensures octets { reader.new.octets ≡ reader.old.octets }
        ensures onward { OnOk result (reader.old.place < reader.new.place) };

    /// Writes the value, of which the layout has octets. After Memory what was written before still stands in front.
    fn write(&self, alloc: Global, writer: &mut Writer) -> Result<(), Memory>
        requires { layout.Fits self.now }
        ensures octets { OnOk result (writer.new ≡ writer.old ++ layout.spell self.now) }
        ensures kept { StartsWith writer.new writer.old };
}

impl Element for u16 {
    ghost use Rattle.jt_layout.specs.Layout.{word};

    ghost layout = { word };

    #[tactic(auto, unfolding(crate::specs::Layout::number))]
    fn fits_in_list(&self) -> bool {
        let _number = *self;
        true
    }

    fn read(_alloc: Global, reader: &mut Reader<'_>) -> Result<u16, CodecError> {
        Ok(reader.word()?)
    }

    fn write(&self, _alloc: Global, writer: &mut Writer) -> Result<(), Memory> {
        writer.word(*self)
    }
}

impl Element for u32 {
    ghost use Rattle.jt_layout.specs.Layout.{dword};

    ghost layout = { dword };

    #[tactic(auto, unfolding(crate::specs::Layout::number))]
    fn fits_in_list(&self) -> bool {
        let _number = *self;
        true
    }

    fn read(_alloc: Global, reader: &mut Reader<'_>) -> Result<u32, CodecError> {
        Ok(reader.dword()?)
    }

    fn write(&self, _alloc: Global, writer: &mut Writer) -> Result<(), Memory> {
        writer.dword(*self)
    }
}

/// Whether octets are as many as a field of that many octets has.
pub fn octets_fit(octets: &[u8], count: usize) -> bool
    ensures count { IsTrue result ↔ (length octets.now ≡ count) }
    ensures octets { AreOctets octets.now }
{
    octets.len() == count
}

/// Whether the layout has octets for each element.
pub fn all_fit<T: Element>(list: &[T]) -> bool
    ensures { IsTrue result ↔ AllByRecursion T.layout.Fits list.now }
{
    for element in list {
        if !element.fits_in_list() {
            return false;
        }
    }
    true
}

impl<'a> Reader<'a> {
    /// The next so many elements.
    pub fn list<T: Element>(&mut self, alloc: Global, count: usize) -> Result<Seq<T>, CodecError>
        ensures value { Gives (λ list. (list, self.new.place)) result
            ((times count T.layout).read self.old.octets self.old.place) }
        ensures octets { self.new.octets ≡ self.old.octets }
    {
        let mut list = Seq::new(alloc);
        list.reserve(count.min(self.left()).min(MOST_AT_ONCE))?;
        for _ in 0..count {
            let element = T::read(alloc, self)?;
            list.push(element)?;
        }
        Ok(list)
    }

    /// Passes over the next so many elements, and keeps none.
    pub fn pass<T: Element>(&mut self, alloc: Global, count: usize) -> Result<(), CodecError>
        ensures value { Passes self.new.place result
            ((times count T.layout).read self.old.octets self.old.place) }
        ensures octets { self.new.octets ≡ self.old.octets }
    {
        for _ in 0..count {
            T::read(alloc, self)?;
        }
        Ok(())
    }

    /// All elements up to the end.
    pub fn all<T: Element>(&mut self, alloc: Global) -> Result<Seq<T>, CodecError>
        ensures value { Gives (λ list. list) result
            ((to_the_end T.layout).read self.old.octets self.old.place) }
        ensures octets { self.new.octets ≡ self.old.octets }
        ensures end { OnOk result (length self.old.octets ≤ self.new.place) }
    {
        let mut list = Seq::new(alloc);
        while !self.is_at_end() {
            let element = T::read(alloc, self)?;
            list.push(element)?;
        }
        Ok(list)
    }
}

impl Writer {
    /// Writes elements one after the other. After Memory what was written before still stands in front.
    pub fn list<T: Element>(&mut self, alloc: Global, list: &[T]) -> Result<(), Memory>
        requires { AllByRecursion T.layout.Fits list.now }
        ensures octets { OnOk result (self.new ≡ self.old ++ flat_map T.layout.spell list.now) }
        ensures kept { StartsWith self.new self.old }
    {
        for element in list {
            element.write(alloc, self)?;
        }
        Ok(())
    }
}
