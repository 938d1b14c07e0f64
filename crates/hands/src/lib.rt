// The operation in a process's hand: where it begins, and which comes after it. Operations count from 1; N + 1 is none. It is a number and
// no `None`, since the definition `operation_after` counts so, and the theory's proofs with it.
#![tactic(auto)]

ghost use Rattle.std.specs.Prelude.{◌≡◌, ◌+◌, ◌<◌, ◌≤◌, length};
ghost use Rattle.job.specs.Stream.{«record_at»};
ghost use Rattle.job.specs.Job.{«job_of»};
ghost use Rattle.machine.specs.Run.{before, «operation_after»};

use job::{Heading, Operation, Process, Stream};
use machine::Place;
use table::first_row;

// A job as its run reads it: the stream, and what the stream's header says, with every operation's record there.
#[derive(Clone, Copy)]
pub struct Source<'a> {
    pub stream: &'a Stream<'a>,
    pub heading: Heading,
    ghost counted: { heading.count ≡ (job_of stream.now).count },
    ghost kind: { heading.object ≡ (job_of stream.now).object },
    ghost whole: { record_at heading.count + 3 < length stream.now },
}

impl<'a> Source<'a> {
    // Is an operation a put? The number after the last is no operation.
    fn puts(self, o: Operation) -> bool
        ensures { result ≡ (job_of self.entry.stream.now).is_put o.0 }
    {
        if self.heading.count < o.0 {
            return false;
        }
        self.stream.is_put(o)
    }

    // A place before the first step of an operation.
    pub fn begin(self, o: Operation) -> Place
        ensures { result ≡ before (job_of self.entry.stream.now) o.0 }
    {
        Place {
            operation: o,
            row: first_row(self.heading.object, self.puts(o)),
            h: 0,
            t: 0,
            n: 0,
        }
    }

    // The operation of a process that comes after operation o.
    pub fn next_operation(self, p: Process, o: Operation) -> Operation
        requires { (self.heading.count < 65535) × (o.0 ≤ self.heading.count) }
        ensures { result.0 ≡ operation_after (job_of self.entry.stream.now) p.0 o.0 }
    {
        let count = self.heading.count;
        for i in o.0 + 1..count + 1 {
            if self.stream.owner(Operation(i)) == p {
                return Operation(i);
            }
        }
        Operation(count + 1)
    }

    // The place of process p before the operation that comes after operation o.
    pub fn place_after(self, p: Process, o: Operation) -> Place
        requires { (self.heading.count < 65535) × (o.0 ≤ self.heading.count) }
        ensures { result ≡ before (job_of self.entry.stream.now) (operation_after (job_of self.entry.stream.now) p.0 o.0) }
    {
        self.begin(self.next_operation(p, o))
    }
}
