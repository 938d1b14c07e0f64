// The journal of a run: what each operation did, kept in its row by a store or two a step. Cells hold step numbers or items. That there is
// a row, `HasOps`, is asked of each operation: an invariant of the list would need the count, and ask for `o ≤ count` in its place. So is `HasCells`, of what an event stores to.
#![tactic(auto)]

ghost use Rattle.std.specs.Prelude.{◌≡◌, ◌<◌, max, true, length};
ghost use Rattle.basics.specs.Choice.{same};
ghost use Rattle.basics.specs.Maps.{at, upd};
ghost use Rattle.rows.specs.Operations.{HasOps, cells, stored, dropped_mark};
ghost use Rattle.rows.specs.declared.OpColumn.TheVariants.{First, Last, Taken, Stands};
ghost use Rattle.journal.specs.Stored.{earlier, entered, noted, counted, closed, Countable, HasCells};

use job::{Operation, Step};
use machine::Event;
use rows::{OpColumn, cell, store};

// The step that a cell keeps: the one that it has, or k if it has none. A cell is a number, so none is 0, which is no step.
fn earlier(old: u16, k: Step) -> u16
    ensures { result ≡ earlier old k.0 }
{
    if old == 0 {
        return k.0;
    }
    old
}

// Stores a step in a column that has none yet. The cell is stored to either way, so that compiled code need not guess which.
fn store_first(ops: &mut [u16], i: u16, column: OpColumn, k: Step)
    requires { HasOps i ops.old }
    ensures { cells ops.new ≡ stored column i (earlier (cells ops.old column i) k.0) (cells ops.old) }
{
    let first = earlier(cell(ops, i, column), k);
    store(ops, i, column, first);
}

// Stores a step in a column unless a later one is there. The cell is stored to either way.
fn store_later(ops: &mut [u16], i: u16, column: OpColumn, k: Step)
    requires { HasOps i ops.old }
    ensures { cells ops.new ≡ stored column i (max (cells ops.old column i) k.0) (cells ops.old) }
{
    let later = cell(ops, i, column).max(k.0);
    store(ops, i, column, later);
}

// T5 moved Head, or W4 cleared a flag: the operation took the item, whose line stands at the first such step. Beside `note_raise`, since the paper's two rules differ.
fn note_move(n: u16, o: Operation, k: Step, ops: &mut [u16])
    requires { HasOps o.0 ops.old × HasOps n ops.old }
    ensures { cells ops.new ≡ stored Stands n (earlier (cells ops.old Stands n) k.0) (stored Taken o.0 n (cells ops.old)) }
{
    store(ops, o.0, OpColumn::Taken, n);
    store_first(ops, n, OpColumn::Stands, k);
}

// R3: the operation took the item, whose line stands at the latest of its takers' last rounds.
fn note_raise(t: u16, o: Operation, round: Step, ops: &mut [u16])
    requires { HasOps o.0 ops.old × HasOps t ops.old }
    ensures { cells ops.new ≡ stored Stands t (max (cells ops.old Stands t) round.0) (stored Taken o.0 t (cells ops.old)) }
{
    store(ops, o.0, OpColumn::Taken, t);
    store_later(ops, t, OpColumn::Stands, round);
}

// Notes the event of step k, which operation o made.
pub fn note(event: Event, o: Operation, k: Step, ops: &mut [u16])
    requires { HasCells event o.0 ops.old }
    ensures { cells ops.new ≡ noted event o.0 k.0 (cells ops.old) }
{
    match event {
        Event::Quiet => {}
        Event::Round => store(ops, o.0, OpColumn::Start, k.0),
        Event::Linked => store(ops, o.0, OpColumn::Link, k.0),
        Event::Moved(n) => note_move(n, o, k, ops),
        Event::Late(n) => store(ops, o.0, OpColumn::Taken, n),
        Event::Raised(t) => {
            let round = Step(cell(ops, o.0, OpColumn::Start));
            note_raise(t, o, round, ops)
        }
    }
}

// One more round is lost. Row 0 is no operation's: its first cell has how many are.
pub fn count_lost(ops: &mut [u16])
    requires { Countable ops.old }
    ensures { cells ops.new ≡ counted true (cells ops.old) }
{
    let lost = cell(ops, 0, OpColumn::First);
    store(ops, 0, OpColumn::First, lost + 1);
}

// How many rounds are lost?
pub fn lost_rounds(ops: &[u16]) -> u16
    requires { HasOps 0 ops.now }
    ensures { result ≡ cells ops.now First 0 }
{
    cell(ops, 0, OpColumn::First)
}

// Enters step k, made by operation o. Who made each step is a list of u16, as rows are: lent memory, of which a blank cell is 0, nobody.
pub fn enter(o: Operation, k: Step, ops: &mut [u16], by: &mut [u16])
    requires { HasOps o.0 ops.old × (k.0 < length by.old) }
    ensures ops_after { cells ops.new ≡ entered o.0 k.0 (cells ops.old) }
    ensures by_after { at by.new ≡ upd (at by.old) k.0 o.0 }
{
    store_first(ops, o.0, OpColumn::First, k);
    by[k.0 as usize] = o.0;
}

// Has operation o not made a step?
pub fn is_waiting(o: Operation, ops: &[u16]) -> bool
    requires { HasOps o.0 ops.now }
    ensures { result ≡ same (cells ops.now First o.0) 0 }
{
    cell(ops, o.0, OpColumn::First) == 0
}

// Enters that operation o was dropped.
pub fn enter_drop(o: Operation, ops: &mut [u16])
    requires { HasOps o.0 ops.old }
    ensures { cells ops.new ≡ stored Last o.0 dropped_mark (cells ops.old) }
{
    store(ops, o.0, OpColumn::Last, rows::DROPPED);
}

// Enters step k as the last of operation o, if it ended there: a flag, since the definition `closed` is about both.
pub fn enter_end(ends: bool, o: Operation, k: Step, ops: &mut [u16])
    requires { HasOps o.0 ops.old }
    ensures { cells ops.new ≡ closed ends o.0 k.0 (cells ops.old) }
{
    if ends {
        store(ops, o.0, OpColumn::Last, k.0);
    }
}
