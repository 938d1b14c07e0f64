// The run of a job: every step of the schedule, in the order given, on fresh memory.
#![tactic(auto)]

ghost use Rattle.std.specs.Prelude.{◌≡◌, ◌+◌, ◌-◌, ◌≤◌, length};
ghost use Rattle.job.specs.Job.{«job_of»};
ghost use Rattle.job.specs.Ready.{Ready};
ghost use Rattle.machine.specs.Memory.{fresh_memory};
ghost use Rattle.machine.specs.Table.{ended, is_return};
ghost use Rattle.machine.specs.Run.{before, «operation_after»};
ghost use Rattle.machine.specs.Notes.{note};
ghost use Rattle.machine.specs.Lost.{lost};
ghost use Rattle.machine.specs.Idle.{IdleBehind};
ghost use Rattle.step.specs.Promise.{IsStep, «event_at»};
ghost use Rattle.journal.specs.Stored.{Stored};
ghost use Rattle.rows.specs.Operations.{HasOps};
ghost use Rattle.run.specs.Promise.{Runnable, run_places, InPlace, still, working, DropLeaves, TurnLeaves, Makes, Room, AllBlank, Ran};

use access::Scalars;
use hands::Source;
use job::{Heading, Limits, Operation, Process, Slot, Step, Stream};
use journal::{enter, enter_drop, enter_end, is_waiting, lost_rounds};
use machine::{Finish, Object, Place};
use place::advance;
use step::{Stepped, step};
use table::has_ended;

// The run state: "The eight places, one a process, go from step to step together"; and one for nobody, who is named for an idle step.
#[derive(Clone, Copy, Debug, PartialEq, Eq)]
pub struct Run {
    pub places: [Place; Run::PLACES],
}

impl Run {
    pub const PLACES: usize = Limits::PROCESSES + 1;
}

// Every process before its first operation, and nobody past the last one.
fn line_up(source: Source) -> Run
    requires { Runnable source.stream.now source.heading }
    ensures { InPlace (job_of source.entry.stream.now) 0 result.places }
{
    let count = source.heading.count;
    let nobody = source.place_after(Process(Limits::PROCESSES as u8), Operation(count));
    let mut run = Run {
        places: [nobody; Run::PLACES],
    };
    for p in 0..Limits::PROCESSES {
        run.places[p] = source.place_after(Process(p as u8), Operation(0));
    }
    run
}

// How many processes still have operations?
fn working(run: Run, count: u16) -> u8
    requires { length run.places ≡ run_places }
    ensures { result ≡ working count run.places }
{
    let mut total: u8 = 0;
    for place in &run.places {
        if place.operation.0 <= count {
            total += 1;
        }
    }
    total
}

// How many still have, when one of them comes to operation o?
fn working_on(total: u8, count: u16, o: Operation) -> u8
    requires { 1 ≤ total }
    ensures { result ≡ total - 1 + still count o.0 }
{
    if o.0 <= count {
        return total;
    }
    total - 1
}

// Makes step k, that of a place, and enters it in the journal. What does not hang on the access is entered before it: a processor does
// that while it waits for the row.
fn make(
    place: Place,
    k: Step,
    object: Object,
    nodes: &mut [u16],
    ops: &mut [u16],
    by: &mut [u16],
) -> Stepped
    requires { Makes place k.0 object nodes.old ops.old by.old }
    ensures step { IsStep place object nodes.old result nodes.new }
    ensures stored { Stored (event_at place object nodes.old) (ended result.row) (is_return result.row) place.operation.0 k.0 ops.old by.old ops.new by.new }
{
    let o = place.operation;
    enter(o, k, ops, by);
    let s = step(place, k, object, nodes, ops);
    enter_end(has_ended(s.row), o, k, ops);
    s
}

// What a turn of a place leaves: whether its operation is over, and the place's row and registers and the object's cells. A drop at an
// operation that has not begun leaves them too and is not over, so this is no Option.
#[derive(Clone, Copy, Debug, PartialEq, Eq)]
struct Turn {
    over: bool,
    left: Stepped,
}

// A drop at a place. Document 02: "process p drops its begun operation, then stands before its next; with none begun it is idle".
fn drop_at(place: Place, object: Object, ops: &mut [u16]) -> Turn
    requires { HasOps place.operation.0 ops.old }
    ensures { DropLeaves place object ops.old result.over result.left ops.new }
{
    let o = place.operation;
    let left = Stepped {
        row: place.row,
        left: Scalars {
            h: place.h,
            t: place.t,
            n: place.n,
            object,
        },
    };
    if is_waiting(o, ops) {
        return Turn { over: false, left };
    }
    enter_drop(o, ops);
    Turn { over: true, left }
}

// The turn of a place at step k: its step, or its drop.
fn take_turn(
    slot: Slot,
    place: Place,
    k: Step,
    object: Object,
    nodes: &mut [u16],
    ops: &mut [u16],
    by: &mut [u16],
) -> Turn
    requires { Makes place k.0 object nodes.old ops.old by.old }
    ensures { TurnLeaves slot place k.0 object nodes.old ops.old by.old result.over result.left nodes.new ops.new by.new }
{
    if slot.is_drop() {
        return drop_at(place, object, ops);
    }
    let left = make(place, k, object, nodes, ops, by);
    Turn {
        over: has_ended(left.row),
        left,
    }
}

// Runs the whole schedule. The lent memory is blank; it is left with the nodes' rows and with the journal. The run is over when no process
// has operations left, since no step behind that changes anything.
pub fn run_all(
    stream: &Stream,
    job: Heading,
    nodes: &mut [u16],
    ops: &mut [u16],
    by: &mut [u16],
) -> Finish
    requires runnable { Runnable stream.now job }
    requires room { Room nodes.old ops.old by.old × AllBlank nodes.old ops.old by.old }
    ensures ran { Ran (job_of stream.now) job.steps result.object nodes.new ops.new by.new }
    ensures idle_behind { IdleBehind (job_of stream.now) result.reach.0 job.steps }
    ensures lost_value { result.lost ≡ lost (note (job_of stream.now)) job.steps }
{
    let source = Source {
        stream,
        heading: job,
    };
    let mut run = line_up(source);
    let mut total = working(run, job.count);
    let mut object = Object::fresh();
    let mut reach = Step(job.steps);
    for made in 0..job.steps {
        let k = Step(made + 1);
        let slot = stream.scheduled(job.count, k);
        let p = slot.process();
        let i = p.0 as usize;
        let place = run.places[i];
        let o = place.operation;
        if job.count < o.0 {
            continue;
        }
        let turned = take_turn(slot, place, k, object, nodes, ops, by);
        let s = turned.left;
        // field by field, as in crates/access: a copy of the whole would be packed
        let Object { head, tail, top } = s.left.object;
        object = Object { head, tail, top };
        if turned.over {
            let after = source.place_after(p, o);
            run.places[i] = after;
            total = working_on(total, job.count, after.operation);
            if total == 0 {
                reach = k;
                break;
            }
            continue;
        }
        advance(&mut run.places[i], s.row, s.left.h, s.left.t, s.left.n);
    }
    Finish {
        object,
        reach,
        lost: lost_rounds(ops),
    }
}
