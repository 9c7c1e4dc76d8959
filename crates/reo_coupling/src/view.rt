//! What the seats know. No value of these types is ever made: they stand in contracts alone, where an array of length 0 reads
//! as a list of any length.
use reo_fabric::Numbered;
use reo_value::Value;

/// Where a region stands in its work.
#[derive(Clone, Copy, Debug, PartialEq, Eq)]
pub enum Stage {
    /// No round is under way.
    Between,
    /// A round is under way: the region reads.
    UnderWay,
    /// In this round the region read a commit word below the limit, and may commit once.
    Cleared,
}

/// A word that was loaded: in which round, its place among the words, and what was found there.
#[derive(Clone, Copy, Debug, PartialEq, Eq)]
pub struct Loaded {
    pub round: u64,
    pub place: u64,
    pub word: u64,
}

/// What a region knows of the commit word, its round word and the cells.
#[derive(Drop)]
pub struct CellsView {
    pub region: u64,
    pub limit: u64,
    pub round: u64,
    pub stage: Stage,
    /// Cells with the words that it read there in this round. Of two notes on one cell the first counts.
    pub notes: [(u32, u64); 0],
    /// All that it ever loaded.
    pub loads: [Loaded; 0],
    /// Its entries, with their numbers in the history.
    pub entries: [Numbered; 0],
    /// The cells that its last entry took from and that it has not emptied yet, with what was taken.
    pub takes_due: [(u32, Value); 0],
    /// The cells that its last entry filled and that it has not stored yet, with their values.
    pub fills_due: [(u32, Value); 0],
}

/// What a region knows of the ports at it.
#[derive(Drop)]
pub struct PortsView {
    /// Ports with the state words that it read there in this round. Of two notes on one port the first counts.
    pub states: [(u32, u64); 0],
    /// Put ports that it noted as offered, with the data words that it read there in this round.
    pub laid: [(u32, u64); 0],
    /// The get ports of its last entry whose datum it has not stored yet, with the datum.
    pub gots_due: [(u32, Value); 0],
    /// The ports of its last entry that it has not answered yet, with the entry's number.
    pub answers_due: [(u32, u64); 0],
    /// The number of its last entry.
    pub last: u64,
}

/// What a region knows.
#[derive(Drop)]
pub struct RegionView {
    pub cells: CellsView,
    pub ports: PortsView,
}

/// An offer: the value that is put, if it is a put, and how many calls its party had collected by then.
#[derive(Clone, Copy, Debug, PartialEq, Eq)]
pub struct Offer {
    pub value: Option<Value>,
    pub had: u64,
}

/// A collected call: its port, the value that was put or got there, and the number of the commit.
#[derive(Clone, Copy, Debug, PartialEq, Eq)]
pub struct Call {
    pub port: u32,
    pub value: Value,
    pub number: u64,
}

/// What a party knows of one of its ports.
#[derive(Drop)]
pub struct PortView {
    /// The offers whose calls it collected.
    pub past: [Offer; 0],
    /// The offer whose call it has not collected yet.
    pub call: Option<Offer>,
    /// What it stored for the put that it offers next.
    pub set: Option<Value>,
    /// The number at which it read its call to be answered.
    pub seen: Option<u64>,
    /// The datum that it read then.
    pub datum: Option<Value>,
}

/// What a party knows.
#[derive(Drop)]
pub struct PartyView {
    pub party: u64,
    /// What it knows of its ports. Of two notes on one port the first counts.
    pub ports: [(u32, PortView); 0],
    /// The calls that it collected, in this order.
    pub calls: [Call; 0],
    /// All that it ever loaded: the place among the words, and what was found there.
    pub loads: [(u64, u64); 0],
}

/// Whether the seat of a number is not made yet, or out with some thread, or joined into the root again.
#[derive(Clone, Copy, Debug, PartialEq, Eq)]
pub enum Mark {
    Fresh,
    Out,
    Home,
}

/// What the root knows: the limit, how it stands with the seat of each region and of each party, and what the seats knew that
/// came home.
#[derive(Drop)]
pub struct RootView {
    pub limit: u64,
    pub regions: [Mark; 0],
    pub parties: [Mark; 0],
    pub regions_home: [RegionView; 0],
    pub parties_home: [PartyView; 0],
}

/// What a seat knows.
#[derive(Drop)]
pub enum View {
    Root(RootView),
    Region(RegionView),
    Party(PartyView),
    /// The seat was joined into another.
    Spent,
}
