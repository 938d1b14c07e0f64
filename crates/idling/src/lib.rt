// Transmission windows in a stream: before a run, the entries of the steps outside their process's window are made idle ones, so that the run knows no
// windows. Every window opens and closes at a whole minute, so who may act is found once a minute, and no step divides.
#![tactic(auto)]

ghost use Rattle.std.specs.Prelude.{◌≡◌, ℕ, ◌+◌, ◌≤◌, ◌<◌, false, true, length, get_or};
ghost use Rattle.basics.specs.Maps.{at};
ghost use Rattle.job.specs.Limits.{field};
ghost use Rattle.job.specs.Slot.{slot_of, process_of};
ghost use Rattle.job.specs.Job.{job_of};
ghost use Rattle.job.specs.Ready.{Ready, Named};
ghost use Rattle.job.specs.Stream.{schedule_length};
ghost use Rattle.calendar.specs.Named.{weekday_number};
ghost use Rattle.windows.specs.Fields.{second, day_minutes, day_seconds};
ghost use Rattle.windows.specs.Refused.{bad_windows};
ghost use Rattle.windows.specs.Fine.{FineBlock};
ghost use Rattle.hours.specs.Open.{closes, has_weekday};
ghost use Rattle.hours.specs.Windowed.{windowed};
ghost use Rattle.idling.specs.Minutes.{window_of, holds, open_at, no_window, InDays};
ghost use Rattle.idling.specs.Eight.{Eight};
ghost use Rattle.idling.specs.Rewritten.{Rewritten};
ghost use Rattle.idling.specs.Entries.{entry_kept, entries_kept, may_act, first_entry};

use calendar::Weekday;
use job::{Limits, Process, Slot, Stream, schedule_at};
use std::array;
use std::marker::Model;
use windows::{DAY_MINUTES, WindowBlock};

// The process of an idle step: one that no job has. An entry of the schedule is a byte, so it is a number.
const NOBODY: u8 = Limits::PROCESSES as u8;

// The window of a process, as the day of the start sees it: is it booked on the day before, on that day, on the day after, and at which minutes does it
// open and close, from the midnight of such a day?
#[derive(Clone, Copy)]
struct Window {
    yesterday: bool,
    today: bool,
    tomorrow: bool,
    opens: u16,
    closes: u16,
}

// The windows of the eight processes.
type Bookings = [Window; Limits::PROCESSES];

// Which of the eight processes may act.
type Allowed = [bool; Limits::PROCESSES];

// Is a weekday among those of a byte? "bit 0 Monday to bit 6 Sunday".
fn has_weekday(days: u8, w: Weekday) -> bool
    ensures { result ≡ has_weekday days (weekday_number w) }
{
    (days >> u8::from(w)) % 2 == 1
}

// "A closing before its opening counts a day later".
#[tactic(auto, unfolding(hours::specs::Open::closes, basics::specs::Choice::pick, basics::specs::Choice::less))]
fn closes(from: u16, to: u16) -> u16
    requires { to ≤ day_minutes }
    ensures { result ≡ closes from to }
{
    if to < from { to + DAY_MINUTES } else { to }
}

// A block that is not turned back, and the weekday of its start. A clause sees the block's bytes.
#[derive(Drop)]
struct Booked<'a> {
    block: WindowBlock<'a>,
    weekday: Weekday,
}

impl<'a> Model for Booked<'a> {
    ghost use Rattle.std.specs.Prelude.{◌≡◌, List, ℕ};
    ghost use Rattle.calendar.specs.Named.{weekday_number};
    ghost use Rattle.windows.specs.Fine.{FineBlock};
    ghost use Rattle.idling.specs.Minutes.{start_weekday};

    ghost Value = { List ℕ };

    ghost view = { λ b. b.block };

    ghost invariant = { λ b. FineBlock b.block × (weekday_number b.weekday ≡ start_weekday b.block) };
}

impl<'a> Booked<'a> {
    // The block in some bytes.
    fn over(bytes: &'a [u8]) -> Booked<'a>
        requires { FineBlock bytes.now }
        ensures { result ≡ bytes.now }
    {
        let block = WindowBlock::over(bytes);
        let weekday = block.start_date().unwrap().weekday();
        Booked { block, weekday }
    }

    // Its second of the day.
    fn second(&self) -> u32
        ensures { result ≡ second self.now }
    {
        self.block.second()
    }

    // The window of a process.
    fn window_of(&self, p: Process) -> Window
        requires { p.0 < field.processes }
        ensures { result ≡ window_of self.now p.0 }
    {
        let entry = self.block.entry(p);
        let day = self.weekday;
        Window {
            yesterday: has_weekday(entry.weekdays, day.previous()),
            today: has_weekday(entry.weekdays, day),
            tomorrow: has_weekday(entry.weekdays, day.next()),
            opens: entry.opening,
            closes: closes(entry.opening, entry.closing),
        }
    }

    // All its windows.
    fn windows(&self) -> Bookings
        ensures { Eight no_window (window_of self.now) result }
    {
        array::from_fn(|p| self.window_of(Process(p as u8)))
    }
}

// Does a window that opens and closes at these minutes hold a minute, if it is booked?
fn holds(booked: bool, opens: u16, closes: u16, minute: u16) -> bool
    ensures { result ≡ holds booked opens closes minute }
{
    booked && (opens..closes).contains(&minute)
}

impl Window {
    // Is it open at a minute, counted from the midnight before the start? That of the day before may be, that of the day, or that of the day after.
    fn is_open(self, minute: u16) -> bool
        requires { (self.opens ≤ day_minutes) × (self.closes ≤ day_minutes + day_minutes) × (minute < day_minutes + day_minutes) }
        ensures { result ≡ open_at self minute }
    {
        holds(
            self.yesterday,
            self.opens,
            self.closes,
            minute + DAY_MINUTES,
        ) || holds(self.today, self.opens, self.closes, minute)
            || holds(
                self.tomorrow,
                self.opens + DAY_MINUTES,
                self.closes + DAY_MINUTES,
                minute,
            )
    }
}

// Which processes may act in a minute.
fn allowed_at(bookings: &Bookings, minute: u16) -> Allowed
    requires { InDays bookings.now × (minute < day_minutes + day_minutes) }
    ensures { Eight false (λ p. open_at (get_or bookings.now p no_window) minute) result }
{
    let mut allowed = [false; Limits::PROCESSES];
    for (p, may) in allowed.iter_mut().enumerate() {
        *may = bookings[p].is_open(minute);
    }
    allowed
}

// May every process act?
fn all_allowed(allowed: &Allowed) -> bool
    ensures { result ≡ true → (p : ℕ) → p < field.processes → get_or allowed.now p false ≡ true }
{
    allowed.iter().all(|may| *may)
}

// An entry of the schedule, or an idle one where its process may not act. A sum and no branch: which entries are shut, a processor cannot foresee.
fn kept(allowed: &Allowed, entry: u8) -> u8
    requires { process_of (slot_of entry) < field.processes }
    ensures { result ≡ entry_kept (λ p. get_or allowed.now p false) entry }
{
    let p = Slot::from(entry).process();
    let open = allowed[p.0 as usize] as u8;
    entry * open + NOBODY * (1 - open)
}

// Makes those of some entries idle whose processes may not act.
fn shut_stretch(allowed: &Allowed, entries: &mut [u8])
    requires { (i : ℕ) → i < length entries.old → process_of (slot_of (at entries.old i)) < field.processes }
    ensures { Rewritten (λ i. entry_kept (λ p. get_or allowed.now p false) (at entries.old i)) 0 (length entries.old) entries.old entries.new }
{
    if all_allowed(allowed) {
        return;
    }
    for entry in entries.iter_mut() {
        *entry = kept(allowed, *entry);
    }
}

// Makes the steps outside their process's window idle, minute by minute. Step k falls k − 1 seconds after the start.
fn shut_steps(bookings: &Bookings, second: u32, s: &mut [u8])
    requires { InDays bookings.now × (second < day_seconds) × Ready s.old × Named s.old }
    ensures { Rewritten (entries_kept (may_act bookings.now second) s.old) (first_entry s.old) (first_entry s.old + schedule_length s.old) s.old s.new }
{
    let stream = Stream::over(s);
    let first = schedule_at(stream.operations()) + 1;
    let steps = usize::from(stream.schedule_length());
    let mut minute = (second / 60) as u16;
    // counted by hand: behind a loop over `chunks_mut` the prover does not know what the stream holds, and the first minute may have fewer steps
    // the last step of the minute, and the last step that is done
    let mut end = (60 - second % 60) as usize;
    let mut done: usize = 0;
    while done < steps {
        let last = end.min(steps);
        let allowed = allowed_at(bookings, minute);
        shut_stretch(&allowed, &mut s[first + done..first + last]);
        done = last;
        end += 60;
        minute += 1;
    }
}

// Makes the steps outside their process's window idle, in the stream of a job. An empty block shuts nothing.
pub fn shut(b: &[u8], s: &mut [u8])
    requires { (bad_windows b.now ≡ false) × Ready s.old × Named s.old }
    ensures job { job_of s.new ≡ windowed b.now (job_of s.old) }
    ensures ready { Ready s.new }
{
    if b.is_empty() {
        return;
    }
    let booked = Booked::over(b);
    shut_steps(&booked.windows(), booked.second(), s);
}
