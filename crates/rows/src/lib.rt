// Rows of cells in one lent list: a row for each operation, or for each node. A cell is a u16 of lent memory, whatever its column holds:
// a step, an operation, a node or a mark. Flat, and no list of structs: what the must-fail edits `rows-over-each-other` and
// `stored-a-column-further` get wrong is how the cells of rows lie in one list.
#![tactic(auto)]

ghost use Rattle.std.specs.Prelude.{◌≡◌, ℕ, ◌<◌};
ghost use Rattle.std.proofs.Common.{rules};
ghost use Rattle.basics.specs.Maps.{at, upd};
ghost use Rattle.rows.specs.Rows.{place, HasRows, cells_of, stored_in};
ghost use Rattle.rows.specs.Operations as Operations;
ghost use Rattle.rows.specs.Nodes as Nodes;

// The columns of rows of one kind: what a row holds, a cell for each.
pub trait Column {
    // how wide a row is
    const WIDTH: usize;

    ghost WIDTH: { ℕ };

    // the cell of each column
    ghost number: { Self → ℕ };

    fn index(self) -> usize
        ensures { result ≡ number self };

    // each column has a cell in the row
    ghost in_row: { (f : Self) → number f < WIDTH };

    // that is no other's
    ghost own_cell: { (f g : Self) → number f ≡ number g → f ≡ g };
}

// The columns of an operation's row.
#[derive(Clone, Copy, PartialEq, Eq, Debug)]
pub enum OpColumn {
    // its first step
    First,
    // its last step, or that it was dropped
    Last,
    // its last T1, R1 or W2
    Start,
    // its changing Q3, P3 or V4
    Link,
    // the item of its T5 or R3, or of the W4 that it passed
    Taken,
    // where the line of its item's takers stands; an item is a put's operation number
    Stands,
}

impl Column for OpColumn {
    const WIDTH: usize = 6;

    ghost WIDTH = { Operations.op_width };

    ghost number = { Operations.number };

    ghost in_row = { Prim.search rules };

    ghost own_cell = { Prim.search rules };

    fn index(self) -> usize {
        self as usize
    }
}

// What stands for the last step of a dropped operation, which has none: no step has this number. A cell of lent memory is a u16, so a
// mark in it is a number and not the `None` of an `Option`.
pub const DROPPED: u16 = 65535;

// The columns of a node's row: its next, its mark and its upper.
#[derive(Clone, Copy, PartialEq, Eq, Debug)]
pub enum NodeColumn {
    Next,
    Mark,
    Upper,
}

impl Column for NodeColumn {
    // Three columns and a free cell: a processor addresses rows of four cells without a multiplication.
    const WIDTH: usize = 4;

    ghost WIDTH = { Nodes.node_width };

    ghost number = { Nodes.number };

    ghost in_row = { Prim.search rules };

    ghost own_cell = { Prim.search rules };

    fn index(self) -> usize {
        self as usize
    }
}

// What a column says in row `i`.
pub fn cell<C: Column>(rows: &[u16], i: u16, column: C) -> u16
    requires { HasRows C.WIDTH i rows.now }
    ensures { result ≡ cells_of C.number C.WIDTH rows.now column i }
{
    rows[C::WIDTH * (i as usize) + column.index()]
}

// Stores a value in a column of row `i`.
pub fn store<C: Column>(rows: &mut [u16], i: u16, column: C, value: u16)
    requires { HasRows C.WIDTH i rows.old }
    ensures list { at rows.new ≡ upd (at rows.old) (place C.WIDTH i (C.number column)) value }
    ensures columns { cells_of C.number C.WIDTH rows.new ≡ stored_in C.number column i value (cells_of C.number C.WIDTH rows.old) }
{
    rows[C::WIDTH * (i as usize) + column.index()] = value;
}
