//! An entry that is lent.
ghost use Rattle.std.specs.Prelude.{◌≡◌, IfOk};

use crate::entry::Entry;
use reo_value::Value;
use sqlite_items::Items;
use std::alloc::{AllocError, Global};
use std::marker::Model;

/// An entry that is lent: contracts see it as the entry.
#[derive(Drop)]
pub struct EntryRef<'a> {
    region: u32,
    choice: u32,
    takes: &'a [(u32, Value)],
    fills: &'a [(u32, Value)],
    puts: &'a [(u32, Value)],
    gets: &'a [(u32, Value)],
}

impl<'a> Model for EntryRef<'a> {
    ghost use Rattle.reo_fabric.specs.declared.entry.Entry.{Entry as Plain};

    ghost Value = { Plain };

    ghost view = { λ e. record {
      region = e.region;
      choice = e.choice;
      takes = e.takes.now;
      fills = e.fills.now;
      puts = e.puts.now;
      gets = e.gets.now;
    } };
}

impl<'a> EntryRef<'a> {
    pub(crate) fn new(
        region: u32,
        choice: u32,
        takes: &'a [(u32, Value)],
        fills: &'a [(u32, Value)],
        puts: &'a [(u32, Value)],
        gets: &'a [(u32, Value)],
    ) -> EntryRef<'a>
        ensures region { result.region ≡ region }
        ensures choice { result.choice ≡ choice }
        ensures takes { result.takes ≡ takes.now }
        ensures fills { result.fills ≡ fills.now }
        ensures puts { result.puts ≡ puts.now }
        ensures gets { result.gets ≡ gets.now }
    {
        EntryRef {
            region,
            choice,
            takes,
            fills,
            puts,
            gets,
        }
    }

    pub fn region(&self) -> u32
        ensures { result ≡ self.now.region }
    {
        self.region
    }

    pub fn choice(&self) -> u32
        ensures { result ≡ self.now.choice }
    {
        self.choice
    }

    pub fn takes(&self) -> &'a [(u32, Value)]
        ensures { result.now ≡ self.now.takes }
    {
        self.takes
    }

    pub fn fills(&self) -> &'a [(u32, Value)]
        ensures { result.now ≡ self.now.fills }
    {
        self.fills
    }

    pub fn puts(&self) -> &'a [(u32, Value)]
        ensures { result.now ≡ self.now.puts }
    {
        self.puts
    }

    pub fn gets(&self) -> &'a [(u32, Value)]
        ensures { result.now ≡ self.now.gets }
    {
        self.gets
    }

    /// A copy of the entry.
    pub fn to_entry(&self, alloc: Global) -> Result<Entry, AllocError>
        ensures { IfOk result (λ entry. entry ≡ self.now) }
    {
        Ok(Entry {
            region: self.region,
            choice: self.choice,
            takes: Items::from_slice(alloc, self.takes)?,
            fills: Items::from_slice(alloc, self.fills)?,
            puts: Items::from_slice(alloc, self.puts)?,
            gets: Items::from_slice(alloc, self.gets)?,
        })
    }
}
