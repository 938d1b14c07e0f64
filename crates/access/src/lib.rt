// The 21 accesses of the step table, a function for each: what a row does to shared memory and to the registers of its
// operation. Document 01: "A step is one read, one write or one compare-and-set of shared memory, with the private work after it."
// Two that differ only in a register or a cell stay two: a field can be no parameter, and the paper has a sentence for each.
// That a node has a row, `HasNodes`, is asked of each node that a register names: an invariant of the list would ask it of all.
#![tactic(auto)]

ghost use Rattle.std.specs.Prelude.{◌≡◌, ℕ};
ghost use Rattle.machine.specs.declared.Access.TheVariants.{ReadHead, ReadTail, ReadNextOfH, ReadNextOfT, Link, TailToOwn, TailToN, HeadToN, ReadTop, ReadTopToTake, ReadMark, Push, RaiseMark, TopToNext, ReadUpper, ReadUpperToTake, LinkAbove, TopToOwn, TopToN, Cut, ClearFlag};
ghost use Rattle.basics.specs.Choice.{same};
ghost use Rattle.rows.specs.Nodes.{nexts, HasNodes};
ghost use Rattle.machine.specs.Memory.{set_from_to, yes_if};
ghost use Rattle.access.specs.View.{Does, DoesAlone, answered};

use job::Operation;
use machine::{Event, Object, Outcome};
use rows::{NodeColumn, cell, store};

// What cells and registers hold. They are numbers and no enums, since a cell is a u16 of lent memory, whatever its column; and none,
// clear and live are 0, since fresh memory is all zeros (`fresh_memory`, crates/machine/specs/Memory.antt).

// no node
const NONE: u16 = 0;

// the node below all others of a two-way linked stack
const SENTINEL: u16 = 0;

// a mark that is clear
const CLEAR: u16 = 0;

// a mark that is raised
const RAISED: u16 = 1;

// a flag that is live; the flag of a node stands where a mark stands
const LIVE: u16 = 0;

// a flag that is cleared
const CLEARED: u16 = 1;

// The registers of the operation that makes a step, and the cells of shared memory that are no node's.
#[derive(Clone, Copy, Debug, PartialEq, Eq)]
pub struct Scalars {
    pub h: u16,
    pub t: u16,
    pub n: u16,
    pub object: Object,
}

impl Scalars {
    // The same, field by field: compiled code then keeps each in a register of its own. Copied whole, some are packed into one.
    fn apart(self) -> Self
        ensures { result ≡ self }
    {
        Scalars {
            h: self.h,
            t: self.t,
            n: self.n,
            object: Object {
                head: self.object.head,
                tail: self.object.tail,
                top: self.object.top,
            },
        }
    }
}

// What an access left in them, how it came out, and what it was for the record.
#[derive(Clone, Copy, Debug, PartialEq, Eq)]
pub struct Accessed {
    pub left: Scalars,
    pub outcome: Outcome,
    pub event: Event,
}

// The answer of an access that leaves cells `left`.
fn answer(left: Scalars, outcome: Outcome, event: Event) -> Accessed
    ensures { result ≡ answered left outcome event }
{
    Accessed {
        left: left.apart(),
        outcome,
        event,
    }
}

// Did the test hold, or the change happen?
fn yes_if_same(a: u16, b: u16) -> Outcome
    ensures { result ≡ yes_if (same a b) }
{
    if a == b {
        return Outcome::Yes;
    }
    Outcome::No
}

// "«Set A from b to c» changes A only if it holds b."
fn set_from_to(a: &mut u16, b: u16, c: u16) -> Outcome
    ensures { (a.new ≡ set_from_to a.old b c) × (result ≡ yes_if (same a.old b)) }
{
    let held = *a;
    if held == b {
        *a = c;
    }
    yes_if_same(held, b)
}

// "T1 read Head as h."
pub fn read_head(mut c: Scalars) -> Accessed
    ensures { (own : ℕ) → DoesAlone ReadHead own c result }
{
    c.h = c.object.head;
    answer(c, Outcome::Yes, Event::Round)
}

// "Q1 read Tail as t." "T2 read Tail as t."
pub fn read_tail(mut c: Scalars) -> Accessed
    ensures { (own : ℕ) → DoesAlone ReadTail own c result }
{
    c.t = c.object.tail;
    answer(c, Outcome::Yes, Event::Quiet)
}

// "T3 read h's next as n: if h = t and n is none, end, empty; if h = t, T4; else T5."
pub fn read_next_of_h(mut c: Scalars, nodes: &[u16]) -> Accessed
    requires { HasNodes c.h nodes.now }
    ensures { (own : ℕ) → Does ReadNextOfH own c nodes.now result nodes.now }
{
    c.n = cell(nodes, c.h, NodeColumn::Next);
    if c.h != c.t {
        return answer(c, Outcome::Yes, Event::Quiet);
    }
    if c.n == NONE {
        return answer(c, Outcome::Bare, Event::Quiet);
    }
    answer(c, Outcome::No, Event::Quiet)
}

// "Q2 read t's next as n: none, go to Q3; else Q5."
pub fn read_next_of_t(mut c: Scalars, nodes: &[u16]) -> Accessed
    requires { HasNodes c.t nodes.now }
    ensures { (own : ℕ) → Does ReadNextOfT own c nodes.now result nodes.now }
{
    c.n = cell(nodes, c.t, NodeColumn::Next);
    let outcome = yes_if_same(c.n, NONE);
    answer(c, outcome, Event::Quiet)
}

// "Q3 set t's next from none to the own node: changed, Q4; else Q1."
pub fn link_own(own: Operation, c: Scalars, nodes: &mut [u16]) -> Accessed
    requires { HasNodes c.t nodes.old }
    ensures { Does Link own.0 c nodes.old result nodes.new }
{
    if cell(nodes, c.t, NodeColumn::Next) == NONE {
        store(nodes, c.t, NodeColumn::Next, own.0);
        return answer(c, Outcome::Yes, Event::Linked);
    }
    answer(c, Outcome::No, Event::Quiet)
}

// "Q4 set Tail from t to the own node"
pub fn tail_to_own(own: Operation, mut c: Scalars) -> Accessed
    ensures { DoesAlone TailToOwn own.0 c result }
{
    let outcome = set_from_to(&mut c.object.tail, c.t, own.0);
    answer(c, outcome, Event::Quiet)
}

// "Q5 set Tail from t to n; Q1." "T4 set Tail from t to n; T1."
pub fn tail_to_n(mut c: Scalars) -> Accessed
    ensures { (own : ℕ) → DoesAlone TailToN own c result }
{
    let outcome = set_from_to(&mut c.object.tail, c.t, c.n);
    answer(c, outcome, Event::Quiet)
}

// "T5 set Head from h to n"
pub fn head_to_n(mut c: Scalars) -> Accessed
    ensures { (own : ℕ) → DoesAlone HeadToN own c result }
{
    if c.object.head == c.h {
        c.object.head = c.n;
        return answer(c, Outcome::Yes, Event::Moved(c.n));
    }
    answer(c, Outcome::No, Event::Late(c.n))
}

// "P1 read Top as t: none, P3; else P2." "V1 read Top as t." W1 reads as V1.
pub fn read_top(mut c: Scalars) -> Accessed
    ensures { (own : ℕ) → DoesAlone ReadTop own c result }
{
    c.t = c.object.top;
    let outcome = yes_if_same(c.object.top, NONE);
    answer(c, outcome, Event::Quiet)
}

// "R1 read Top as t: none, end, empty; else R2."
pub fn read_top_to_take(mut c: Scalars) -> Accessed
    ensures { (own : ℕ) → DoesAlone ReadTopToTake own c result }
{
    c.t = c.object.top;
    if c.object.top == NONE {
        return answer(c, Outcome::Bare, Event::Round);
    }
    answer(c, Outcome::Yes, Event::Round)
}

// "P2 read t's mark: clear, P3; else P4." "R2 read t's mark: clear, R3; else R5." V3 and W3 "read t's flag: live".
pub fn read_mark(c: Scalars, nodes: &[u16]) -> Accessed
    requires { HasNodes c.t nodes.now }
    ensures { (own : ℕ) → Does ReadMark own c nodes.now result nodes.now }
{
    let outcome = yes_if_same(cell(nodes, c.t, NodeColumn::Mark), CLEAR);
    answer(c, outcome, Event::Quiet)
}

// "P3 set Top from t to the own node, whose next becomes t: changed, end, done; else P1."
pub fn push(own: Operation, mut c: Scalars, nodes: &mut [u16]) -> Accessed
    requires { HasNodes own.0 nodes.old }
    ensures { Does Push own.0 c nodes.old result nodes.new }
{
    if c.object.top == c.t {
        c.object.top = own.0;
        store(nodes, own.0, NodeColumn::Next, c.t);
        return answer(c, Outcome::Yes, Event::Linked);
    }
    answer(c, Outcome::No, Event::Quiet)
}

// "R3 raise t's mark."
pub fn raise_mark(c: Scalars, nodes: &mut [u16]) -> Accessed
    requires { HasNodes c.t nodes.old }
    ensures { (own : ℕ) → Does RaiseMark own c nodes.old result nodes.new }
{
    store(nodes, c.t, NodeColumn::Mark, RAISED);
    answer(c, Outcome::Yes, Event::Raised(c.t))
}

// "P4", "R4" and "R5 set Top from t to t's next"; "V8 set Top from t to the lower", and W6 and W9 act as V8
pub fn top_to_next(mut c: Scalars, nodes: &[u16]) -> Accessed
    requires { HasNodes c.t nodes.now }
    ensures { (own : ℕ) → Does TopToNext own c nodes.now result nodes.now }
{
    let next = cell(nodes, c.t, NodeColumn::Next);
    let outcome = set_from_to(&mut c.object.top, c.t, next);
    answer(c, outcome, Event::Quiet)
}

// "V2 read t's upper as u: none, V3; else V6."; u is register n
pub fn read_upper(mut c: Scalars, nodes: &[u16]) -> Accessed
    requires { HasNodes c.t nodes.now }
    ensures { (own : ℕ) → Does ReadUpper own c nodes.now result nodes.now }
{
    c.n = cell(nodes, c.t, NodeColumn::Upper);
    let outcome = yes_if_same(c.n, NONE);
    answer(c, outcome, Event::Quiet)
}

// W2 reads as V2: "u not none, W8; none with t the sentinel, end empty; else W3."
pub fn read_upper_to_take(mut c: Scalars, nodes: &[u16]) -> Accessed
    requires { HasNodes c.t nodes.now }
    ensures { (own : ℕ) → Does ReadUpperToTake own c nodes.now result nodes.now }
{
    c.n = cell(nodes, c.t, NodeColumn::Upper);
    if c.n != NONE {
        return answer(c, Outcome::No, Event::Round);
    }
    if c.t == SENTINEL {
        return answer(c, Outcome::Bare, Event::Round);
    }
    answer(c, Outcome::Yes, Event::Round)
}

// "V4 if t's cell is none and live, link the own node there with lower t"
pub fn link_above(own: Operation, c: Scalars, nodes: &mut [u16]) -> Accessed
    requires { HasNodes c.t nodes.old × HasNodes own.0 nodes.old }
    ensures { Does LinkAbove own.0 c nodes.old result nodes.new }
{
    if cell(nodes, c.t, NodeColumn::Upper) != NONE {
        return answer(c, Outcome::No, Event::Quiet);
    }
    if cell(nodes, c.t, NodeColumn::Mark) != LIVE {
        return answer(c, Outcome::No, Event::Quiet);
    }
    store(nodes, c.t, NodeColumn::Upper, own.0);
    store(nodes, own.0, NodeColumn::Next, c.t);
    answer(c, Outcome::Yes, Event::Linked)
}

// "V5 set Top from t to the own node"
pub fn top_to_own(own: Operation, mut c: Scalars) -> Accessed
    ensures { DoesAlone TopToOwn own.0 c result }
{
    let outcome = set_from_to(&mut c.object.top, c.t, own.0);
    answer(c, outcome, Event::Quiet)
}

// "V6 set Top from t to u", and W8 acts as V6
pub fn top_to_n(mut c: Scalars) -> Accessed
    ensures { (own : ℕ) → DoesAlone TopToN own c result }
{
    let outcome = set_from_to(&mut c.object.top, c.t, c.n);
    answer(c, outcome, Event::Quiet)
}

// "V7 if the lower's cell is t and live, make its upper none.", and W5 and W7 act as V7
pub fn cut(c: Scalars, nodes: &mut [u16]) -> Accessed
    requires { HasNodes c.t nodes.old × HasNodes (nexts nodes.old c.t) nodes.old }
    ensures { (own : ℕ) → Does Cut own c nodes.old result nodes.new }
{
    let lower = cell(nodes, c.t, NodeColumn::Next);
    if cell(nodes, lower, NodeColumn::Upper) != c.t {
        return answer(c, Outcome::No, Event::Quiet);
    }
    if cell(nodes, lower, NodeColumn::Mark) != LIVE {
        return answer(c, Outcome::No, Event::Quiet);
    }
    store(nodes, lower, NodeColumn::Upper, NONE);
    answer(c, Outcome::Yes, Event::Quiet)
}

// "W4 if t's upper is none, clear the flag, cleared already or not"
pub fn clear_flag(c: Scalars, nodes: &mut [u16]) -> Accessed
    requires { HasNodes c.t nodes.old }
    ensures { (own : ℕ) → Does ClearFlag own c nodes.old result nodes.new }
{
    if cell(nodes, c.t, NodeColumn::Upper) == NONE {
        store(nodes, c.t, NodeColumn::Mark, CLEARED);
        return answer(c, Outcome::Yes, Event::Moved(c.t));
    }
    answer(c, Outcome::No, Event::Quiet)
}
