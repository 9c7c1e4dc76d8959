//! What one firing of a region does.
ghost use Rattle.std.specs.Prelude.{◌≡◌};

use crate::entry_ref::EntryRef;
use reo_value::Value;
use sqlite_items::Items;

/// What a firing of a region does: it takes from cells, fills cells, takes offered data at put ports and gives data at get
/// ports. Each list has places with their data. The firing has this number in its region's table.
#[derive(Debug, Drop)]
pub struct Entry {
    pub region: u32,
    pub choice: u32,
    pub takes: Items<(u32, Value)>,
    pub fills: Items<(u32, Value)>,
    pub puts: Items<(u32, Value)>,
    pub gets: Items<(u32, Value)>,
}

impl Entry {
    pub fn lent(&self) -> EntryRef<'_>
        ensures { result ≡ self.now }
    {
        EntryRef::new(
            self.region,
            self.choice,
            self.takes.as_slice(),
            self.fills.as_slice(),
            self.puts.as_slice(),
            self.gets.as_slice(),
        )
    }
}

/// An entry with its number in the history.
#[derive(Debug, Drop)]
pub struct Numbered {
    pub number: u64,
    pub entry: Entry,
}
