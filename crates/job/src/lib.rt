// The stream of a job: its fields, and the conditions of document 01's table that are about a stream.
#![tactic(auto)]

ghost use Rattle.std.specs.Prelude.{◌≡◌, ◌+◌, ◌*◌, ◌≤◌, ◌<◌, not, length};
ghost use Rattle.std.specs.Option.{ok_or};
ghost use Rattle.basics.specs.Choice.{less};
ghost use Rattle.block.specs.Checked.{error_number};
ghost use Rattle.job.specs.declared.Refusal.TheVariants.{UnknownKind};
ghost use Rattle.job.specs.Answer.{refusal_number, answer_number, answer_length};
ghost use Rattle.job.specs.Limits.{field, most_file, most_stream, Sound};
ghost use Rattle.job.specs.Kind.{kind_of};
ghost use Rattle.job.specs.Slot.{slot_of, process_of, is_drop};
ghost use Rattle.job.specs.Job.{job_of, heading_of};
ghost use Rattle.job.specs.Stream.{processes, operations, schedule_length, stream_length, record_at, action, action_of, HasRecord};
ghost use Rattle.job.specs.Refusals.{first_met, outside, exact_count, bad_record, bad_records, bad_schedule, bad_padding, header_conditions, list_conditions};

use block::{BLOCK, BlockError, PAYLOAD};
use memory::word_at;
use std::marker::Model;

// An operation's number; operations count from 1, and 0 is none.
#[derive(Clone, Copy, Debug, PartialEq, Eq, PartialOrd, Ord)]
pub struct Operation(pub u16);

// A step's number; steps count from 1.
#[derive(Clone, Copy, Debug, PartialEq, Eq, PartialOrd, Ord)]
pub struct Step(pub u16);

// A process's number; processes count from 0.
#[derive(Clone, Copy, Debug, PartialEq, Eq, PartialOrd, Ord)]
pub struct Process(pub u8);

// What the schedule names for a step: a process that steps, or one that drops its begun operation.
#[derive(Clone, Copy, Debug, PartialEq, Eq)]
pub enum Slot {
    Acts(Process),
    Drops(Process),
}

// What an entry of the schedule names. Document 02: "A schedule entry 128 + p is a numbered step in which process p drops".
impl From<u8> for Slot {
    ghost from_gives = { λ entry slot. slot ≡ slot_of entry };

    #[tactic(auto, unfolding(crate::specs::Slot::slot_of, basics::specs::Choice::pick, basics::specs::Choice::same, basics::specs::Choice::less))]
    fn from(entry: u8) -> Slot {
        if entry < 128 {
            Slot::Acts(Process(entry))
        } else {
            Slot::Drops(Process(entry - 128))
        }
    }
}

impl Slot {
    // The process that is named.
    #[tactic(auto, unfolding(crate::specs::Slot::process_of))]
    pub fn process(self) -> Process
        ensures { result.0 ≡ process_of self }
    {
        match self {
            Slot::Acts(p) | Slot::Drops(p) => p,
        }
    }

    // Does it drop its operation?
    #[tactic(auto, unfolding(crate::specs::Slot::is_drop))]
    pub fn is_drop(self) -> bool
        ensures { result ≡ is_drop self }
    {
        matches!(self, Slot::Drops(_))
    }
}

// The objects of a job.
#[derive(Clone, Copy, Debug, PartialEq, Eq)]
pub enum Kind {
    Queue,
    Stack,
    // the two-way linked stack
    TwoWay,
}

// Document 01: "kind (1 queue, 2 stack)"; document 02: "it becomes kind 3".
impl TryFrom<u8> for Kind {
    type Error = Refusal;

    ghost try_from_gives = { λ n r. r ≡ ok_or (kind_of n) UnknownKind };

    #[tactic(auto, unfolding(crate::specs::Kind::kind_of, crate::specs::Kind::kinds, crate::specs::Kind::look_up, crate::specs::Kind::kind_number, basics::specs::Choice::pick, basics::specs::Choice::same, basics::specs::Choice::less))]
    fn try_from(number: u8) -> Result<Kind, Refusal> {
        match number {
            1 => Ok(Kind::Queue),
            2 => Ok(Kind::Stack),
            3 => Ok(Kind::TwoWay),
            _ => Err(Refusal::UnknownKind),
        }
    }
}

// What an operation does.
#[derive(Clone, Copy, PartialEq, Eq)]
enum Action {
    Put,
    Take,
}

// Why a call turns a job back, in the order of document 01's table, with document 02's two more: each case has its number there.
#[derive(Clone, Copy, Debug, PartialEq, Eq)]
pub enum Refusal {
    ShortMemory = 1,
    BadLength = 2,
    SumDiffers = 3,
    Misplaced = 4,
    UnknownKind = 5,
    BadProcesses = 6,
    BadOperations = 7,
    BadSteps = 8,
    BadCount = 9,
    BadRecord = 10,
    BadEntry = 11,
    BadPadding = 12,
    BadWindows = 13,
    // of a salvage only: the header or the records are not whole
    NotWhole = 14,
}

impl Refusal {
    // The number in the table.
    pub fn number(self) -> u8
        ensures { result ≡ refusal_number self }
    {
        self as u8
    }
}

impl From<BlockError> for Refusal {
    ghost from_gives = { λ e r. refusal_number r ≡ error_number e };

    fn from(error: BlockError) -> Refusal {
        match error {
            BlockError::SumDiffers => Refusal::SumDiffers,
            BlockError::Misplaced => Refusal::Misplaced,
        }
    }
}

// The length that a call gives. "A refusal gives its number and length 0": an `Err` has none, and a read clears the work memory behind it.
pub fn length_of(answer: Result<usize, Refusal>) -> usize
    ensures { result ≡ answer_length answer }
{
    answer.unwrap_or(0)
}

// The limits of a profile: most processes P, operations N and steps S of a job, most blocks of its file, and the least length of the
// report memory.
#[derive(Clone, Copy)]
pub struct Limits {
    pub processes: u16,
    pub operations: u16,
    pub steps: u16,
    pub blocks: usize,
    pub report: usize,
}

impl Limits {
    // Document 01's figures, the field's. No profile has more processes, operations or steps: the places, rows and cells of a run are as
    // many.
    pub const PROCESSES: usize = 8;

    pub const OPERATIONS: usize = 256;

    pub const STEPS: usize = 16384;

    const BLOCKS: usize = 35;

    pub const REPORT: usize = 32768;

    // The longest file and the longest joined stream of the field.
    pub const FILE: usize = Limits::BLOCKS * BLOCK;

    pub const STREAM: usize = Limits::BLOCKS * PAYLOAD;

    pub fn field() -> Limits
        ensures { result ≡ field }
    {
        Limits {
            processes: Limits::PROCESSES as u16,
            operations: Limits::OPERATIONS as u16,
            steps: Limits::STEPS as u16,
            blocks: Limits::BLOCKS,
            report: Limits::REPORT,
        }
    }

    // The length of the longest file. As many blocks as the joined stream below, but of another size, which has a name of its own.
    pub fn most_file(self) -> usize
        requires { Sound self }
        ensures { result ≡ most_file self }
    {
        self.blocks * BLOCK
    }

    // The length of the longest joined stream: what a read and a replay need as work memory.
    pub fn most_stream(self) -> usize
        requires { Sound self }
        ensures { result ≡ most_stream self }
    {
        self.blocks * PAYLOAD
    }
}

// What a stream's header says of its job: read once, and passed on.
#[derive(Clone, Copy)]
pub struct Heading {
    pub object: Kind,
    pub count: u16,
    pub steps: u16,
}

// Where the schedule of so many operations stands: the entry of step k is k bytes further.
pub fn schedule_at(count: u16) -> usize
    ensures { result ≡ 5 + 4 * count }
{
    5 + 4 * usize::from(count)
}

// Where the record of an operation stands.
#[tactic(auto, unfolding(crate::specs::Stream::record_at))]
fn record_at(o: Operation) -> usize
    ensures { result ≡ record_at o.0 }
{
    2 + 4 * usize::from(o.0)
}

#[tactic(auto, unfolding(crate::specs::Refusals::outside, basics::specs::Choice::pick, basics::specs::Choice::same, basics::specs::Choice::less))]
fn outside(low: u16, high: u16, n: u16) -> bool
    ensures { result ≡ outside low high n }
{
    n < low || high < n
}

// Is an entry of the schedule out of range?
#[tactic(auto, unfolding(basics::specs::Choice::pick, basics::specs::Choice::same, basics::specs::Choice::less))]
fn bad_entry(entry: u8, processes: u8) -> bool
    ensures { result ≡ not (less (process_of (slot_of entry)) processes) }
{
    Slot::from(entry).process().0 >= processes
}

// The stream of a job, which is at least as long as its header. A clause sees its bytes. That it has a record, `HasRecord`, is asked of each operation:
// a stream that is refused may have fewer than its header says.
#[derive(Drop)]
pub struct Stream<'a> {
    bytes: &'a [u8],
}

impl<'a> Model for Stream<'a> {
    ghost use Rattle.std.specs.Prelude.{List, ℕ, ◌≤◌, length};

    ghost Value = { List ℕ };

    ghost view = { λ s. s.bytes.now };

    ghost invariant = { λ s. 6 ≤ length s.bytes.now };
}

impl<'a> Stream<'a> {
    // The stream in some bytes.
    pub fn over(bytes: &'a [u8]) -> Stream<'a>
        requires { 6 ≤ length bytes.now }
        ensures { result ≡ bytes.now }
    {
        Stream { bytes }
    }

    // The object. A stream of no kind is refused; here it is read as a queue's.
    #[tactic(auto, unfolding(crate::specs::Kind::kind_found, crate::specs::Stream::kind, crate::specs::Job::job_of, basics::specs::Maps::at))]
    pub fn object(&self) -> Kind
        ensures { result ≡ (job_of self.now).object }
    {
        Kind::try_from(self.bytes[0]).unwrap_or(Kind::Queue)
    }

    // The number of processes.
    #[tactic(auto, unfolding(crate::specs::Stream::processes, basics::specs::Maps::at))]
    fn processes(&self) -> u8
        ensures { result ≡ processes self.now }
    {
        self.bytes[1]
    }

    // The number of operations.
    #[tactic(auto, unfolding(crate::specs::Stream::operations))]
    pub fn operations(&self) -> u16
        ensures { result ≡ operations self.now }
    {
        word_at(self.bytes, 2)
    }

    // The length of the schedule.
    #[tactic(auto, unfolding(crate::specs::Stream::schedule_length))]
    pub fn schedule_length(&self) -> u16
        ensures { result ≡ schedule_length self.now }
    {
        word_at(self.bytes, 4)
    }

    pub fn heading(&self) -> Heading
        ensures { result ≡ heading_of (job_of self.now) }
    {
        let object = self.object();
        Heading {
            object,
            count: self.operations(),
            steps: self.schedule_length(),
        }
    }

    // The process that does an operation.
    pub fn owner(&self, o: Operation) -> Process
        requires { HasRecord self.now o.0 }
        ensures { result.0 ≡ (job_of self.now).owner o.0 }
    {
        let place = record_at(o);
        Process(self.bytes[place])
    }

    // What an operation does, where its record says so: "action (1 put, 2 take)".
    #[tactic(auto, unfolding(crate::specs::Stream::action, crate::specs::Stream::action_of, crate::specs::Stream::record_at, basics::specs::Maps::at, basics::specs::Choice::pick, basics::specs::Choice::same, basics::specs::Choice::less))]
    fn action(&self, o: Operation) -> Option<Action>
        requires { HasRecord self.now o.0 }
        ensures { result ≡ action_of (action self.now o.0) }
    {
        let place = record_at(o);
        match self.bytes[place + 1] {
            1 => Some(Action::Put),
            2 => Some(Action::Take),
            _ => None,
        }
    }

    // Is an operation a put?
    #[tactic(auto, using(crate::proofs::Recorded::put_said), unfolding(crate::specs::Stream::action_of, basics::specs::Choice::pick, basics::specs::Choice::same, basics::specs::Choice::less))]
    pub fn is_put(&self, o: Operation) -> bool
        requires { HasRecord self.now o.0 }
        ensures { result ≡ (job_of self.now).is_put o.0 }
    {
        self.action(o) == Some(Action::Put)
    }

    // The value field of an operation.
    pub fn value(&self, o: Operation) -> u16
        requires { HasRecord self.now o.0 }
        ensures { result ≡ (job_of self.now).field o.0 }
    {
        let place = record_at(o);
        word_at(self.bytes, place + 2)
    }

    // What the schedule names for a step, in a stream of so many operations.
    #[tactic(auto, unfolding(crate::specs::Job::job_of, crate::specs::Stream::scheduled, basics::specs::Maps::at))]
    pub fn scheduled(&self, count: u16, k: Step) -> Slot
        requires { (count ≡ operations self.now) × (5 + 4 * count + k.0 < length self.now) }
        ensures { result ≡ (job_of self.now).slot k.0 }
    {
        let place = schedule_at(count);
        Slot::from(self.bytes[place + usize::from(k.0)])
    }

    // The length of the stream itself, without padding.
    #[tactic(auto, unfolding(crate::specs::Stream::stream_length))]
    pub fn stream_length(&self) -> usize
        ensures { result ≡ stream_length self.now }
    {
        6 + 4 * usize::from(self.operations()) + usize::from(self.schedule_length())
    }

    // The exact number of blocks.
    #[tactic(auto, unfolding(crate::specs::Refusals::exact_count, block::specs::Block::payload_size))]
    pub fn exact_count(&self) -> usize
        ensures { result ≡ exact_count self.now }
    {
        self.stream_length().div_ceil(PAYLOAD)
    }

    // The numbers 5 to 8, where the header meets one.
    #[tactic(auto, unfolding(crate::specs::Refusals::first_met, crate::specs::Refusals::header_conditions, crate::specs::Refusals::bad_kind, crate::specs::Refusals::bad_processes, crate::specs::Refusals::bad_operations, crate::specs::Refusals::bad_schedule_length, crate::specs::Kind::is_missing, crate::specs::Stream::kind, basics::specs::Maps::at, basics::specs::Choice::pick, basics::specs::Choice::same, basics::specs::Choice::less))]
    pub fn header(&self, limits: Limits) -> Result<(), Refusal>
        ensures { answer_number result ≡ first_met (header_conditions limits self.now) }
    {
        Kind::try_from(self.bytes[0])?;
        if outside(1, limits.processes, u16::from(self.processes())) {
            return Err(Refusal::BadProcesses);
        }
        if outside(1, limits.operations, self.operations()) {
            return Err(Refusal::BadOperations);
        }
        if limits.steps < self.schedule_length() {
            return Err(Refusal::BadSteps);
        }
        Ok(())
    }

    // Is the record of an operation out of range?
    #[tactic(auto, using(crate::proofs::Recorded::owner_said, crate::proofs::Recorded::field_said), unfolding(crate::specs::Refusals::bad_record, crate::specs::Refusals::outside, crate::specs::Stream::action_of, crate::specs::Stream::record_at, basics::specs::Choice::pick, basics::specs::Choice::same, basics::specs::Choice::less))]
    fn bad_record(&self, o: Operation) -> bool
        requires { (1 ≤ o.0) × HasRecord self.now o.0 }
        ensures { result ≡ bad_record self.now o.0 }
    {
        if self.owner(o).0 >= self.processes() {
            return true;
        }
        match self.action(o) {
            Some(Action::Put) => false,
            Some(Action::Take) => self.value(o) != 0,
            None => true,
        }
    }

    // Is a record out of range?
    #[tactic(auto, using(crate::proofs::Tests::header_there), unfolding(crate::specs::Stream::stream_length, crate::specs::Stream::record_at))]
    fn bad_records(&self) -> bool
        requires { stream_length self.now ≤ length self.now }
        ensures { result ≡ bad_records self.now }
    {
        for before in 0..self.operations() {
            if self.bad_record(Operation(before + 1)) {
                return true;
            }
        }
        false
    }

    // Is an entry of the schedule out of range? All are looked at, also behind one that is: compiled code then looks at many at once.
    #[tactic(auto, using(crate::proofs::Tests::header_there), unfolding(crate::specs::Refusals::bad_schedule, crate::specs::Stream::stream_length))]
    fn bad_schedule(&self) -> bool
        requires { stream_length self.now ≤ length self.now }
        ensures { result ≡ bad_schedule self.now }
    {
        let start = schedule_at(self.operations()) + 1;
        let end = start + usize::from(self.schedule_length());
        let processes = self.processes();
        let mut bad = false;
        for entry in &self.bytes[start..end] {
            bad |= bad_entry(*entry, processes);
        }
        bad
    }

    // The numbers 10 and 11, where the records or the schedule meet one.
    #[tactic(auto, unfolding(crate::specs::Refusals::first_met, crate::specs::Refusals::list_conditions, basics::specs::Choice::pick, basics::specs::Choice::same, basics::specs::Choice::less))]
    pub fn lists(&self) -> Result<(), Refusal>
        requires { stream_length self.now ≤ length self.now }
        ensures { answer_number result ≡ first_met (list_conditions self.now) }
    {
        if self.bad_records() {
            return Err(Refusal::BadRecord);
        }
        if self.bad_schedule() {
            return Err(Refusal::BadEntry);
        }
        Ok(())
    }

    // Is a byte behind the stream not zero?
    #[tactic(auto, using(crate::proofs::Tests::header_there))]
    pub fn bad_padding(&self) -> bool
        requires { stream_length self.now ≤ length self.now }
        ensures { result ≡ bad_padding self.now }
    {
        self.bytes[self.stream_length()..].iter().any(|b| *b != 0)
    }
}
