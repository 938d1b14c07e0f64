// The window block: its fields, and when it is turned back.
#![tactic(auto)]

ghost use Rattle.std.specs.Prelude.{◌≡◌, ◌≤◌, ◌<◌, false, length, MatchOption};
ghost use Rattle.block.specs.Block.{block_size};
ghost use Rattle.calendar.specs.Dates.{in_century};
ghost use Rattle.windows.specs.Fields.{year, month, day, second, booked_processes};
ghost use Rattle.windows.specs.Entry.{entry_of};
ghost use Rattle.windows.specs.Refused.{bad_start, bad_window, bad_entries, bad_rest, bad_block, bad_windows};

use block::{BLOCK, PAYLOAD, check};
use calendar::Date;
use job::Process;
use memory::word_at;
use std::marker::Model;

// The processes that a block books for, however many a job has.
const PROCESSES: u8 = 8;
// The minutes and the seconds of a day.
pub const DAY_MINUTES: u16 = 1440;

const DAY_SECONDS: u32 = 86400;
// Every weekday's bit; bit 7 is none's.
const ALL_DAYS: u8 = 127;
// Where the eight entries stand, and the bytes of each.
const ENTRIES: usize = 10;

const ENTRY: usize = 5;
// Where zeros follow: behind the entries, up to the sums.
const REST: usize = 50;

const REST_END: usize = 2 + PAYLOAD;

// The entry of a process: its weekdays, a bit each, and the minutes at which its window opens and closes.
#[derive(Clone, Copy, PartialEq, Eq, Debug)]
pub struct Entry {
    pub weekdays: u8,
    pub opening: u16,
    pub closing: u16,
}

// A window block, which is whole: it has at least 512 bytes. A clause sees its bytes.
#[derive(Drop)]
pub struct WindowBlock<'a> {
    bytes: &'a [u8],
}

impl<'a> Model for WindowBlock<'a> {
    ghost use Rattle.std.specs.Prelude.{List, ℕ, ◌≤◌, length};
    ghost use Rattle.block.specs.Block.{block_size};

    ghost Value = { List ℕ };

    ghost view = { λ b. b.bytes.now };

    ghost invariant = { λ b. block_size ≤ length b.bytes.now };
}

impl<'a> WindowBlock<'a> {
    // The block in some bytes.
    pub fn over(bytes: &'a [u8]) -> WindowBlock<'a>
        requires { block_size ≤ length bytes.now }
        ensures { result ≡ bytes.now }
    {
        WindowBlock { bytes }
    }

    // The year of the start.
    #[tactic(auto, unfolding(block::specs::Block::block_size, basics::specs::Maps::at, crate::specs::Fields::year))]
    pub fn year(&self) -> u16
        ensures { result ≡ year self.now }
    {
        word_at(self.bytes, 2)
    }

    // Its month.
    #[tactic(auto, unfolding(block::specs::Block::block_size, basics::specs::Maps::at, crate::specs::Fields::month))]
    pub fn month(&self) -> u8
        ensures { result ≡ month self.now }
    {
        self.bytes[4]
    }

    // Its day.
    #[tactic(auto, unfolding(block::specs::Block::block_size, basics::specs::Maps::at, crate::specs::Fields::day))]
    pub fn day(&self) -> u8
        ensures { result ≡ day self.now }
    {
        self.bytes[5]
    }

    // The date of the start, if it is one of the years 2000 to 2099.
    pub fn start_date(&self) -> Option<Date>
        ensures { MatchOption result (in_century (year self.now) (month self.now) (day self.now) ≡ false) (λ d. (d.year ≡ year self.now) × (d.month ≡ month self.now) × (d.day ≡ day self.now)) }
    {
        Date::new(self.year(), self.month(), self.day())
    }

    // Its second of the day.
    #[tactic(auto, unfolding(block::specs::Block::block_size, basics::specs::Maps::at, crate::specs::Fields::second))]
    pub fn second(&self) -> u32
        ensures { result ≡ second self.now }
    {
        65536 * (word_at(self.bytes, 6) as u32) + word_at(self.bytes, 8) as u32
    }

    // The entry of a process.
    #[tactic(auto, unfolding(block::specs::Block::block_size, basics::specs::Maps::at, crate::specs::Fields::weekdays, crate::specs::Fields::opening, crate::specs::Fields::closing, crate::specs::Fields::entry_at, crate::specs::Entry::entry_of))]
    pub fn entry(&self, p: Process) -> Entry
        requires { p.0 < booked_processes }
        ensures { result ≡ entry_of self.now p.0 }
    {
        let place = ENTRIES + ENTRY * (p.0 as usize);
        Entry {
            weekdays: self.bytes[place],
            opening: word_at(self.bytes, place + 1),
            closing: word_at(self.bytes, place + 3),
        }
    }

    // Is the start out of range, or no date?
    fn bad_start(&self) -> bool
        ensures { result ≡ bad_start self.now }
    {
        self.start_date().is_none() || self.second() >= DAY_SECONDS
    }

    // Is the entry of a process out of range?
    fn bad_window(&self, p: Process) -> bool
        requires { p.0 < booked_processes }
        ensures { result ≡ bad_window self.now p.0 }
    {
        let entry = self.entry(p);
        entry.weekdays > ALL_DAYS || DAY_MINUTES < entry.opening || DAY_MINUTES < entry.closing
    }

    // Is an entry out of range?
    fn bad_entries(&self) -> bool
        ensures { result ≡ bad_entries self.now }
    {
        (0..PROCESSES).any(|p| self.bad_window(Process(p)))
    }

    // Is a byte behind the entries not zero?
    fn bad_rest(&self) -> bool
        ensures { result ≡ bad_rest self.now }
    {
        self.bytes[REST..REST_END].iter().any(|byte| *byte != 0)
    }
}

// Is a block of 512 bytes turned back?
fn bad_block(b: &[u8]) -> bool
    requires { length b.now ≡ block_size }
    ensures { result ≡ bad_block b.now }
{
    let Ok(_) = check(b, 0) else {
        return true;
    };
    let block = WindowBlock::over(b);
    block.bad_start() || block.bad_entries() || block.bad_rest()
}

// Is a second input turned back? Number 13.
pub fn bad_windows(b: &[u8]) -> bool
    ensures { result ≡ bad_windows b.now }
{
    if b.is_empty() {
        return false;
    }
    b.len() != BLOCK || bad_block(b)
}
