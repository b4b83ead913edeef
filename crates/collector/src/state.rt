// What a collector is made of, and what a feed answers.
use refusal::Refusal;

// The places, and the octets of each in the store: 32 pages of 53.
pub const PLACES: usize = 8;

pub const PLACE_OCTETS: usize = 1696;

pub const STORE_OCTETS: usize = 13568;

// The last second that a feed takes.
pub const LAST_SECOND: u64 = 2477260799;

// What tells one message from another.
#[derive(Clone, Copy, Debug, PartialEq, Eq)]
pub struct Key {
    pub status: u8,
    pub number: u8,
    pub size: u8,
}

// Open: the key, the second of the first page, how many pages are held. Done: the key and that second.
#[derive(Clone, Copy, Debug, PartialEq, Eq)]
pub enum PlaceState {
    Free,
    Open(Key, u64, usize),
    Done(Key, u64),
}

// A place's state and the numbers of its pages in order of arrival.
#[derive(Clone, Copy)]
pub struct Place {
    pub state: PlaceState,
    pub numbers: [u8; 32],
}

// The clock and the places: the collector without its store.
#[derive(Clone, Copy)]
pub struct Head {
    pub timeout: u64,
    pub last: u64,
    pub places: [Place; PLACES],
}

// A collector whole.
#[derive(Drop)]
pub struct Collector {
    pub head: Head,
    pub store: [u8; STORE_OCTETS],
}

// What a feed that takes its page answers: the count of different numbers now held, or the size of the message that is solved.
#[derive(Clone, Copy, Debug, PartialEq, Eq)]
pub enum Fed {
    Kept(u64),
    Ready(u64),
}

// What `start` answers, and a collector. A struct and no `Result`: beside TIMEOUT too there is a collector, as `start` promises.
#[derive(Drop)]
pub struct Started {
    pub answer: Result<(), Refusal>,
    pub collector: Collector,
}
