// One step of a place: the row's access, and the row after it. Document 01: "A step is one read, one write or one compare-and-set of
// shared memory, with the private work after it."
#![tactic(auto)]

ghost use Rattle.std.specs.Prelude.{◌≡◌, false};
ghost use Rattle.machine.specs.declared.Access.TheVariants.{Link, TailToN};
ghost use Rattle.machine.specs.Table.{successor, ended, is_return};
ghost use Rattle.machine.specs.Lost.{goes_back};
ghost use Rattle.access.specs.View.{Does};
ghost use Rattle.rows.specs.Operations.{cells};
ghost use Rattle.journal.specs.Stored.{noted, counted, Countable, HasCells};
ghost use Rattle.step.specs.Promise.{Inside, heard, IsStep, event_at};

use access::{
    Accessed, Scalars, clear_flag, cut, head_to_n, link_above, link_own, push, raise_mark,
    read_head, read_mark, read_next_of_h, read_next_of_t, read_tail, read_top, read_top_to_take,
    read_upper, read_upper_to_take, tail_to_n, tail_to_own, top_to_n, top_to_next, top_to_own,
};
use job::{Operation, Step};
use journal::{count_lost, note};
use machine::{Access, Entry, Object, Outcome, Place, Row};

// What a step left: the place's row and registers, and the three cells of shared memory.
#[derive(Clone, Copy, Debug, PartialEq, Eq)]
pub struct Stepped {
    pub row: Row,
    pub left: Scalars,
}

// The same access, noted: what it was for the record, at step k of operation `own`.
fn logged(d: Accessed, own: Operation, k: Step, ops: &mut [u16]) -> Accessed
    requires { HasCells d.event own.0 ops.old }
    ensures { (result ≡ d) × (cells ops.new ≡ noted d.event own.0 k.0 (cells ops.old)) }
{
    note(d.event, own, k, ops);
    d
}

// A Q3, counted as a lost round if it failed.
#[tactic(auto, unfolding(journal::specs::Stored::counted, basics::specs::Choice::pick))]
fn tried(d: Accessed, ops: &mut [u16]) -> Accessed
    requires { Countable ops.old }
    ensures { (result ≡ d) × (cells ops.new ≡ counted (goes_back Link d.outcome) (cells ops.old)) }
{
    if d.outcome == Outcome::No {
        count_lost(ops);
    }
    d
}

// A Q5 or T4, which is a lost round whether it moved Tail or not. Beside `tried`, since they count by different tests.
#[tactic(auto, unfolding(journal::specs::Stored::counted, basics::specs::Choice::pick))]
fn helped(d: Accessed, ops: &mut [u16]) -> Accessed
    requires { Countable ops.old }
    ensures { (result ≡ d) × (cells ops.new ≡ counted (goes_back TailToN d.outcome) (cells ops.old)) }
{
    if d.outcome != Outcome::Bare {
        count_lost(ops);
    }
    d
}

// The access `a` of operation `own`, at step k. It is noted and counted in the arm that makes it, where the compiled code knows what it was.
// So it is a match: through a closure or a dyn the compiled code would know nothing, and ask again.
fn perform(
    a: Access,
    own: Operation,
    k: Step,
    c: Scalars,
    nodes: &mut [u16],
    ops: &mut [u16],
) -> Accessed
    requires { Inside own.0 c.h c.t nodes.old × HasCells (heard a own.0 c nodes.old) own.0 ops.old × Countable ops.old }
    ensures does { Does a own.0 c nodes.old result nodes.new }
    ensures ops_after { cells ops.new ≡ counted (goes_back a result.outcome) (noted (heard a own.0 c nodes.old) own.0 k.0 (cells ops.old)) }
{
    match a {
        Access::ReadHead => logged(read_head(c), own, k, ops),
        Access::ReadTail => logged(read_tail(c), own, k, ops),
        Access::ReadNextOfH => logged(read_next_of_h(c, nodes), own, k, ops),
        Access::ReadNextOfT => logged(read_next_of_t(c, nodes), own, k, ops),
        Access::Link => tried(logged(link_own(own, c, nodes), own, k, ops), ops),
        Access::TailToOwn => logged(tail_to_own(own, c), own, k, ops),
        Access::TailToN => helped(logged(tail_to_n(c), own, k, ops), ops),
        Access::HeadToN => logged(head_to_n(c), own, k, ops),
        Access::ReadTop => logged(read_top(c), own, k, ops),
        Access::ReadTopToTake => logged(read_top_to_take(c), own, k, ops),
        Access::ReadMark => logged(read_mark(c, nodes), own, k, ops),
        Access::Push => logged(push(own, c, nodes), own, k, ops),
        Access::RaiseMark => logged(raise_mark(c, nodes), own, k, ops),
        Access::TopToNext => logged(top_to_next(c, nodes), own, k, ops),
        Access::ReadUpper => logged(read_upper(c, nodes), own, k, ops),
        Access::ReadUpperToTake => logged(read_upper_to_take(c, nodes), own, k, ops),
        Access::LinkAbove => logged(link_above(own, c, nodes), own, k, ops),
        Access::TopToOwn => logged(top_to_own(own, c), own, k, ops),
        Access::TopToN => logged(top_to_n(c), own, k, ops),
        Access::Cut => logged(cut(c, nodes), own, k, ops),
        Access::ClearFlag => logged(clear_flag(c, nodes), own, k, ops),
    }
}

// The row after an access that came out so.
#[tactic(auto, unfolding(machine::specs::Table::successor))]
fn successor(e: Entry, outcome: Outcome) -> Row
    ensures { result ≡ successor e outcome }
{
    match outcome {
        Outcome::Yes => e.yes,
        Outcome::No => e.no,
        Outcome::Bare => Row::Empty,
    }
}

// Step k: that of place `p`, whose operation has not ended. The nodes' rows are shared memory; the operations' rows are the journal, where
// the step's event is noted, and a lost round counted.
pub fn step(p: Place, k: Step, object: Object, nodes: &mut [u16], ops: &mut [u16]) -> Stepped
    requires row_value { (ended p.row ≡ false) × Inside p.operation.0 p.h p.t nodes.old }
    requires has_cells { HasCells (event_at p object nodes.old) p.operation.0 ops.old × Countable ops.old }
    ensures step { IsStep p object nodes.old result nodes.new }
    ensures ops_after { cells ops.new ≡ counted (is_return result.row) (noted (event_at p object nodes.old) p.operation.0 k.0 (cells ops.old)) }
{
    let e = table::row_of(p.row);
    let c = Scalars {
        h: p.h,
        t: p.t,
        n: p.n,
        object,
    };
    let d = perform(e.access, p.operation, k, c, nodes, ops);
    Stepped {
        row: successor(e, d.outcome),
        left: d.left,
    }
}
