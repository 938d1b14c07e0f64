// The words of a run that code and definitions share: rows, accesses, places and what a step was.
#![tactic(auto)]

ghost use Rattle.std.specs.Prelude.{◌≡◌};
ghost use Rattle.machine.specs.Memory.{fresh_memory};

use job::{Limits, Operation, Step};
use rows::{Column, NodeColumn, OpColumn};

// Where an operation stands: at one of the 36 rows of the listings, or ended, with done, with item n, with item t,
// or with empty. The ends are rows too, and no `Option` of one, since a row's successor in the table and in the definitions may be an end.
#[derive(Clone, Copy, Debug, PartialEq, Eq)]
pub enum Row {
    Q1,
    Q2,
    Q3,
    Q4,
    Q5,
    T1,
    T2,
    T3,
    T4,
    T5,
    P1,
    P2,
    P3,
    P4,
    R1,
    R2,
    R3,
    R4,
    R5,
    V1,
    V2,
    V3,
    V4,
    V5,
    V6,
    V7,
    V8,
    W1,
    W2,
    W3,
    W4,
    W5,
    W6,
    W7,
    W8,
    W9,
    Done,
    ItemN,
    ItemT,
    Empty,
}

// What a row does to shared memory: one read, one write or one compare-and-set.
#[derive(Clone, Copy, Debug, PartialEq, Eq)]
pub enum Access {
    ReadHead,
    ReadTail,
    ReadNextOfH,
    ReadNextOfT,
    Link,
    TailToOwn,
    TailToN,
    HeadToN,
    ReadTop,
    ReadTopToTake,
    ReadMark,
    Push,
    RaiseMark,
    TopToNext,
    ReadUpper,
    ReadUpperToTake,
    LinkAbove,
    TopToOwn,
    TopToN,
    Cut,
    ClearFlag,
}

// How an access came out: by it a row chooses its successor. Bare: the object was found empty, which ends a take.
#[derive(Clone, Copy, Debug, PartialEq, Eq)]
pub enum Outcome {
    Yes,
    No,
    Bare,
}

// A row of the step table: the access, the successor if it succeeds, and if not.
#[derive(Clone, Copy, Debug, PartialEq, Eq)]
pub struct Entry {
    pub access: Access,
    pub yes: Row,
    pub no: Row,
}

// The place of one process: the operation in hand, its registers, which hold nodes, and the row where it stands. The row is last: right
// behind the operation, compiled code would load the two at once that it stored one by one, and wait.
#[derive(Clone, Copy, Debug, PartialEq, Eq)]
pub struct Place {
    pub operation: Operation,
    pub h: u16,
    pub t: u16,
    pub n: u16,
    pub row: Row,
}

// What a step was for the record.
#[derive(Clone, Copy, Debug, PartialEq, Eq)]
pub enum Event {
    // none of those below; a case and no `None`, since the definitions (`event_of`) and the theory's proofs name it
    Quiet,
    // T1, R1 or W2: a take begins a round
    Round,
    // a changing Q3, P3 or V4
    Linked,
    // T5 for an item, which moved Head; or W4 on one, which cleared its flag
    Moved(u16),
    // T5 for an item, which found Head moved
    Late(u16),
    // R3 on an item
    Raised(u16),
}

// The cells of an object that are no node's.
#[derive(Clone, Copy, Debug, PartialEq, Eq)]
pub struct Object {
    pub head: u16,
    pub tail: u16,
    pub top: u16,
}

impl Object {
    // A row for node 0 and for each node that an operation may link, and as many rows of operations.
    pub const NODES: usize = NodeColumn::WIDTH * (Limits::OPERATIONS + 1);

    pub const OPS: usize = OpColumn::WIDTH * (Limits::OPERATIONS + 1);

    // A cell for each step; step 0 is none.
    pub const STEPS: usize = Limits::STEPS + 1;

    // "A fresh queue has Head and Tail at node 0 and every next none; a fresh stack has Top none and every mark clear." Of the two-way
    // linked stack: "Top starts there", at sentinel 0.
    #[tactic(auto, unfolding(crate::specs::Memory::fresh_memory))]
    pub fn fresh() -> Self
        ensures { (result.head ≡ fresh_memory.head) × (result.tail ≡ fresh_memory.tail) × (result.top ≡ fresh_memory.top) }
    {
        Object {
            head: 0,
            tail: 0,
            top: 0,
        }
    }
}

// What a run leaves beside the lent memory: the object's cells, a step behind which every step of the schedule is idle, and how many
// rounds were lost.
#[derive(Clone, Copy, Debug, PartialEq, Eq)]
pub struct Finish {
    pub object: Object,
    pub reach: Step,
    pub lost: u16,
}
