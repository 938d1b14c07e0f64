// The step table. Document 01: "The two listings are one table of nineteen rows." Document 02, request 3, adds the seventeen of the
// two-way linked stack, so that there are 36. A row gives its access, its successor if the access succeeds, and if not; where the
// paper has one successor, both are that. The rows of each document stand in a constant of their own: of one with all 36, compiled
// code would make a copy at every step.
#![tactic(auto)]

ghost use Rattle.std.specs.Prelude.{◌≡◌, false, ◌+◌, ◌<◌};
ghost use Rattle.machine.specs.Table.{row_of, ended, «first_row»};
ghost use Rattle.table.specs.Position.{entry_at};

use job::Kind;
use machine::{Access, Entry, Row};

// how many rows document 01 has
const COUNT: usize = 19;

const ROWS: [Entry; COUNT] = [
    // Queue put. "Q1 read Tail as t."
    Entry {
        access: Access::ReadTail,
        yes: Row::Q2,
        no: Row::Q2,
    },
    // "Q2 read t's next as n: none, go to Q3; else Q5."
    Entry {
        access: Access::ReadNextOfT,
        yes: Row::Q3,
        no: Row::Q5,
    },
    // "Q3 set t's next from none to the own node: changed, Q4; else Q1."
    Entry {
        access: Access::Link,
        yes: Row::Q4,
        no: Row::Q1,
    },
    // "Q4 set Tail from t to the own node; end, done."
    Entry {
        access: Access::TailToOwn,
        yes: Row::Done,
        no: Row::Done,
    },
    // "Q5 set Tail from t to n; Q1."
    Entry {
        access: Access::TailToN,
        yes: Row::Q1,
        no: Row::Q1,
    },
    // Queue take. "T1 read Head as h."
    Entry {
        access: Access::ReadHead,
        yes: Row::T2,
        no: Row::T2,
    },
    // "T2 read Tail as t."
    Entry {
        access: Access::ReadTail,
        yes: Row::T3,
        no: Row::T3,
    },
    // "T3 read h's next as n: if h = t and n is none, end, empty; if h = t, T4; else T5."
    Entry {
        access: Access::ReadNextOfH,
        yes: Row::T5,
        no: Row::T4,
    },
    // "T4 set Tail from t to n; T1."
    Entry {
        access: Access::TailToN,
        yes: Row::T1,
        no: Row::T1,
    },
    // "T5 set Head from h to n; end with item n, changed or not."
    Entry {
        access: Access::HeadToN,
        yes: Row::ItemN,
        no: Row::ItemN,
    },
    // Stack put. "P1 read Top as t: none, P3; else P2."
    Entry {
        access: Access::ReadTop,
        yes: Row::P3,
        no: Row::P2,
    },
    // "P2 read t's mark: clear, P3; else P4."
    Entry {
        access: Access::ReadMark,
        yes: Row::P3,
        no: Row::P4,
    },
    // "P3 set Top from t to the own node, whose next becomes t: changed, end, done; else P1."
    Entry {
        access: Access::Push,
        yes: Row::Done,
        no: Row::P1,
    },
    // "P4 set Top from t to t's next; P1."
    Entry {
        access: Access::TopToNext,
        yes: Row::P1,
        no: Row::P1,
    },
    // Stack take. "R1 read Top as t: none, end, empty; else R2."
    Entry {
        access: Access::ReadTopToTake,
        yes: Row::R2,
        no: Row::R2,
    },
    // "R2 read t's mark: clear, R3; else R5."
    Entry {
        access: Access::ReadMark,
        yes: Row::R3,
        no: Row::R5,
    },
    // "R3 raise t's mark."
    Entry {
        access: Access::RaiseMark,
        yes: Row::R4,
        no: Row::R4,
    },
    // "R4 set Top from t to t's next; end with item t, changed or not."
    Entry {
        access: Access::TopToNext,
        yes: Row::ItemT,
        no: Row::ItemT,
    },
    // "R5 set Top from t to t's next; R1."
    Entry {
        access: Access::TopToNext,
        yes: Row::R1,
        no: Row::R1,
    },
];

// how many rows the two-way linked stack has
const TWO_WAY_COUNT: usize = 17;

const TWO_WAY_ROWS: [Entry; TWO_WAY_COUNT] = [
    // Two-way linked stack put. "V1 read Top as t."
    Entry {
        access: Access::ReadTop,
        yes: Row::V2,
        no: Row::V2,
    },
    // "V2 read t's upper as u: none, V3; else V6."
    Entry {
        access: Access::ReadUpper,
        yes: Row::V3,
        no: Row::V6,
    },
    // "V3 read t's flag: live, V4; else V7."
    Entry {
        access: Access::ReadMark,
        yes: Row::V4,
        no: Row::V7,
    },
    // "V4 if t's cell is none and live, link the own node there with lower t and go to V5; else V1."
    Entry {
        access: Access::LinkAbove,
        yes: Row::V5,
        no: Row::V1,
    },
    // "V5 set Top from t to the own node; end."
    Entry {
        access: Access::TopToOwn,
        yes: Row::Done,
        no: Row::Done,
    },
    // "V6 set Top from t to u; V1."
    Entry {
        access: Access::TopToN,
        yes: Row::V1,
        no: Row::V1,
    },
    // "V7 if the lower's cell is t and live, make its upper none."
    Entry {
        access: Access::Cut,
        yes: Row::V8,
        no: Row::V8,
    },
    // "V8 set Top from t to the lower; V1."
    Entry {
        access: Access::TopToNext,
        yes: Row::V1,
        no: Row::V1,
    },
    // Two-way linked stack take. "W1 and W2 read as V1 and V2: u not none, W8; none with t the sentinel, end empty; else W3."
    Entry {
        access: Access::ReadTop,
        yes: Row::W2,
        no: Row::W2,
    },
    Entry {
        access: Access::ReadUpperToTake,
        yes: Row::W3,
        no: Row::W8,
    },
    // "W3 read the flag: live, W4; else W7."
    Entry {
        access: Access::ReadMark,
        yes: Row::W4,
        no: Row::W7,
    },
    // "W4 if t's upper is none, clear the flag, cleared already or not, and go to W5; else W1."
    Entry {
        access: Access::ClearFlag,
        yes: Row::W5,
        no: Row::W1,
    },
    // "W5 acts as V7, W6 as V8 but ends with t."
    Entry {
        access: Access::Cut,
        yes: Row::W6,
        no: Row::W6,
    },
    Entry {
        access: Access::TopToNext,
        yes: Row::ItemT,
        no: Row::ItemT,
    },
    // "W7 acts as V7, then W9 as V8, to W1"
    Entry {
        access: Access::Cut,
        yes: Row::W9,
        no: Row::W9,
    },
    // "W8 acts as V6, to W1."
    Entry {
        access: Access::TopToN,
        yes: Row::W1,
        no: Row::W1,
    },
    Entry {
        access: Access::TopToNext,
        yes: Row::W1,
        no: Row::W1,
    },
];

// The row at a position of the two constants, one after the other.
fn entry(i: usize) -> Entry
    requires { i < 36 }
    ensures { result ≡ entry_at i }
{
    if i < COUNT {
        ROWS[i]
    } else {
        TWO_WAY_ROWS[i - COUNT]
    }
}

// The table's row for where an operation stands that has not ended. Each position stands in its arm, so that compiled code knows
// the entry by the row and looks nothing up.
#[tactic(auto, using(crate::proofs::Rows::at_position), unfolding(machine::specs::Table::position, machine::specs::Table::ended, machine::specs::Table::end_of, machine::specs::Table::is_end))]
pub fn row_of(r: Row) -> Entry
    requires { ended r ≡ false }
    ensures { result ≡ row_of r }
{
    match r {
        Row::Q1 => entry(0),
        Row::Q2 => entry(1),
        Row::Q3 => entry(2),
        Row::Q4 => entry(3),
        Row::Q5 => entry(4),
        Row::T1 => entry(5),
        Row::T2 => entry(6),
        Row::T3 => entry(7),
        Row::T4 => entry(8),
        Row::T5 => entry(9),
        Row::P1 => entry(10),
        Row::P2 => entry(11),
        Row::P3 => entry(12),
        Row::P4 => entry(13),
        Row::R1 => entry(14),
        Row::R2 => entry(15),
        Row::R3 => entry(16),
        Row::R4 => entry(17),
        Row::R5 => entry(18),
        Row::V1 => entry(19),
        Row::V2 => entry(20),
        Row::V3 => entry(21),
        Row::V4 => entry(22),
        Row::V5 => entry(23),
        Row::V6 => entry(24),
        Row::V7 => entry(25),
        Row::V8 => entry(26),
        Row::W1 => entry(27),
        Row::W2 => entry(28),
        Row::W3 => entry(29),
        Row::W4 => entry(30),
        Row::W5 => entry(31),
        Row::W6 => entry(32),
        Row::W7 => entry(33),
        Row::W8 => entry(34),
        Row::W9 => entry(35),
        // an operation that has ended makes no step
        Row::Done | Row::ItemN | Row::ItemT | Row::Empty => unreachable!(),
    }
}

// Has an operation at this row ended?
#[tactic(auto, unfolding(machine::specs::Table::ended, machine::specs::Table::end_of, machine::specs::Table::is_end))]
pub fn has_ended(r: Row) -> bool
    ensures { result ≡ ended r }
{
    matches!(r, Row::Done | Row::ItemN | Row::ItemT | Row::Empty)
}

// The row where an operation begins.
#[tactic(auto, unfolding(machine::specs::Table::first_row))]
pub fn first_row(object: Kind, put: bool) -> Row
    ensures { result ≡ first_row object put }
{
    match (object, put) {
        (Kind::Queue, true) => Row::Q1,
        (Kind::Queue, false) => Row::T1,
        (Kind::Stack, true) => Row::P1,
        (Kind::Stack, false) => Row::R1,
        (Kind::TwoWay, true) => Row::V1,
        (Kind::TwoWay, false) => Row::W1,
    }
}
