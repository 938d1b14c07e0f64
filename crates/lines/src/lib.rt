// The lines of a report, each written on a page.
#![tactic(auto)]

ghost use Rattle.std.specs.Prelude.{◌≡◌, ◌++◌, ◌≤◌, length};
ghost use Rattle.std.specs.Iterator.{YieldsFirst, item_count};
ghost use Rattle.std.proofs.Common.{rules};
ghost use Rattle.basics.specs.Text.{text, decimal};
ghost use Rattle.text.specs.Pages.{HasRoom, Wrote};
ghost use Rattle.rows.specs.Operations.{cells};
ghost use Rattle.rows.specs.declared.OpColumn.TheVariants.{Taken};
ghost use Rattle.rows.specs.Nodes.{HasNodes, marks};
ghost use Rattle.job.specs.Stream.{HasRecord};
ghost use Rattle.job.specs.Job.{job_of};
ghost use Rattle.machine.specs.Notes.{Answer};
ghost use Rattle.wording.specs.Report.{object_line, answer_text};
ghost use Rattle.lines.specs.Told.{InStream, line_told};
ghost use Rattle.lines.specs.Members as Members;
ghost use Rattle.lines.specs.Members.{Unbounded, Bounds, stays, left_from, NodesThere, FromHere};
ghost use Rattle.lines.specs.Lines.{at_text};

use job::{Kind, Operation, Step, Stream};
use rows::{Column, NodeColumn, OpColumn, cell, store};
use stage::put_stage;
use text::Page;

// What is found to stand at a step: the line of a put, that of an item's takers, or that of a take that answered empty.
#[derive(Clone, Copy)]
pub enum Found {
    Put(Operation),
    Takers(Operation),
    Empty(Operation),
}

// The object of a stream.
pub fn object_line(page: &mut Page, kind: Kind)
    requires { HasRoom page.old (object_line kind) }
    ensures { Wrote page.old page.new (object_line kind) }
{
    match kind {
        Kind::Queue => page.put_bytes(b"object queue\n"),
        Kind::Stack => page.put_bytes(b"object stack\n"),
        Kind::TwoWay => page.put_bytes(b"object linked\n"),
    }
}

// The end of a line.
fn end_line(page: &mut Page)
    requires { HasRoom page.old (text "\n") }
    ensures { Wrote page.old page.new (text "\n") }
{
    page.put_bytes(b"\n");
}

// A number behind a space.
fn put_spaced(page: &mut Page, n: u16)
    requires { HasRoom page.old (text " " ++ decimal n) }
    ensures { Wrote page.old page.new (text " " ++ decimal n) }
{
    page.put_labelled(b" ", n);
}

// `item` with its number and its value.
fn put_item(page: &mut Page, stream: &Stream, item: Operation)
    requires { HasRecord stream.now item.0 × HasRoom page.old (answer_text (job_of stream.now) (Answer.item item.0)) }
    ensures { Wrote page.old page.new (answer_text (job_of stream.now) (Answer.item item.0)) }
{
    page.put_labelled(b" item ", item.0);
    put_stage(page, b" value ", stream.value(item));
}

// An operation with its row, and the stream that has its record and its item's.
#[derive(Clone, Copy)]
struct Row<'a> {
    stream: &'a Stream<'a>,
    ops: &'a [u16],
    o: Operation,
    ghost in_stream: { InStream stream.now ops.now o.0 },
}

impl Row<'_> {
    ghost use Rattle.lines.specs.Rows.{action_of, answer_of, end_of, progress_of, front_of, line_of};

    // What a column of the row says.
    fn cell(&self, column: OpColumn) -> u16
        ensures { result ≡ cells self.now.ops.now column self.now.o.0 }
    {
        cell(self.ops, self.o.0, column)
    }

    // `put` with its value, or `take`.
    fn put_action(&self, page: &mut Page)
        requires { HasRoom page.old (action_of self.now) }
        ensures { Wrote page.old page.new (action_of self.now) }
    {
        if self.stream.is_put(self.o) {
            put_stage(page, b" put ", self.stream.value(self.o));
        } else {
            page.put_bytes(b" take");
        }
    }

    // The answer of an ended operation.
    fn put_answer(&self, page: &mut Page)
        requires { HasRoom page.old (answer_of self.now) }
        ensures { Wrote page.old page.new (answer_of self.now) }
    {
        if self.cell(OpColumn::Link) != 0 {
            return page.put_bytes(b" done");
        }
        match self.cell(OpColumn::Taken) {
            0 => page.put_bytes(b" empty"),
            item => put_item(page, self.stream, Operation(item)),
        }
    }

    // How an operation that has begun ended, if it did.
    fn put_end(&self, page: &mut Page)
        requires { HasRoom page.old (end_of self.now) }
        ensures { Wrote page.old page.new (end_of self.now) }
    {
        match self.cell(OpColumn::Last) {
            0 => page.put_bytes(b" last - open"),
            rows::DROPPED => page.put_bytes(b" last - dropped"),
            last => {
                page.put_labelled(b" last ", last);
                self.put_answer(page);
            }
        }
    }

    // How far an operation has come.
    fn put_progress(&self, page: &mut Page)
        requires { HasRoom page.old (progress_of self.now) }
        ensures { Wrote page.old page.new (progress_of self.now) }
    {
        match self.cell(OpColumn::First) {
            0 => page.put_bytes(b" first - last - waiting"),
            first => {
                page.put_labelled(b" first ", first);
                self.put_end(page);
            }
        }
    }

    // The front of an operation's line: its number, its process and what it does.
    fn put_front(&self, page: &mut Page)
        requires { HasRoom page.old (front_of self.now) }
        ensures { Wrote page.old page.new (front_of self.now) }
    {
        page.put_labelled(b"op ", self.o.0);
        let p = self.stream.owner(self.o);
        page.put_labelled(b" process ", p.0 as u16);
        self.put_action(page);
    }

    // The whole line.
    fn put_line(&self, page: &mut Page)
        requires { HasRoom page.old (line_of self.now) }
        ensures { Wrote page.old page.new (line_of self.now) }
    {
        self.put_front(page);
        self.put_progress(page);
        end_line(page);
    }
}

// The line of an operation, by its row.
pub fn operation_line(page: &mut Page, stream: &Stream, ops: &[u16], o: Operation)
    requires { InStream stream.now ops.now o.0 × HasRoom page.old (line_told (job_of stream.now) (cells ops.now) o.0) }
    ensures { Wrote page.old page.new (line_told (job_of stream.now) (cells ops.now) o.0) }
{
    Row { stream, ops, o }.put_line(page);
}

// A step, and an operation or an item behind a label.
#[inline(always)]
fn put_at(page: &mut Page, s: Step, label: &[u8], o: Operation)
    requires { HasRoom page.old (at_text s.0 label.now o.0) }
    ensures { Wrote page.old page.new (at_text s.0 label.now o.0) }
{
    page.put_labelled(b"at ", s.0);
    page.put_labelled(label, o.0);
}

// The line of a step that has one member: a put, or a take that found nothing.
#[inline(always)]
fn single_line(page: &mut Page, s: Step, label: &[u8], o: Operation)
    requires { HasRoom page.old (at_text s.0 label.now o.0 ++ text "\n") }
    ensures { Wrote page.old page.new (at_text s.0 label.now o.0 ++ text "\n") }
{
    put_at(page, s, label, o);
    end_line(page);
}

// The columns of an item's row of bounds.
#[derive(Clone, Copy, PartialEq, Eq, Debug)]
pub enum BoundColumn {
    // how many operations come before its first taker
    Skip,
    // and how many behind its last
    Beyond,
}

// how many they are
pub const BOUNDS: usize = 2;

impl Column for BoundColumn {
    const WIDTH: usize = BOUNDS;

    ghost WIDTH = { Members.bound_width };

    ghost number = { Members.bound_number };

    ghost in_row = { Prim.search rules };

    ghost own_cell = { Prim.search rules };

    fn index(self) -> usize {
        self as usize
    }
}

// For each item, where its takers are: from both ends at once.
pub fn bound_takers(bounds: &mut [u16], ops: &[u16], count: u16)
    requires { Unbounded ops.now bounds.old count }
    ensures { Bounds ops.now bounds.new count }
{
    for o in 0..count {
        let rest = count - o;
        let last = cell(ops, rest, OpColumn::Taken);
        store(bounds, last, BoundColumn::Skip, rest - 1);
        let first = cell(ops, o + 1, OpColumn::Taken);
        store(bounds, first, BoundColumn::Beyond, rest - 1);
    }
}

// The operations, and where each item's takers are among them.
#[derive(Clone, Copy)]
pub struct Takers<'a> {
    ops: &'a [u16],
    bounds: &'a [u16],
    count: u16,
    ghost bounded: { Bounds ops.now bounds.now count },
}

impl<'a> Takers<'a> {
    ghost use Rattle.wording.specs.Report.{spaced, record_line};
    ghost use Rattle.lines.specs.Lines.{member};
    ghost use Rattle.lines.specs.Walks.{IsOf, takers_in, take_line_of, line_of};

    // With bounds that were found.
    pub fn new(ops: &'a [u16], bounds: &'a [u16], count: u16) -> Takers<'a>
        requires { Bounds ops.now bounds.now count }
        ensures { IsOf ops.now count result }
    {
        Takers { ops, bounds, count }
    }

    // The takers of an item, ascending, each behind a space.
    fn put_takers(&self, page: &mut Page, item: Operation)
        requires { (item.0 ≤ self.now.count) × HasRoom page.old (spaced (takers_in self.now item.0)) }
        ensures { Wrote page.old page.new (spaced (takers_in self.now item.0)) }
    {
        let skip = cell(self.bounds, item.0, BoundColumn::Skip);
        let end = self.count - cell(self.bounds, item.0, BoundColumn::Beyond);
        for before in skip..end {
            let o = before + 1;
            if cell(self.ops, o, OpColumn::Taken) == item.0 {
                put_spaced(page, o);
            }
        }
    }

    // The line of an item's takers.
    fn take_line(&self, page: &mut Page, s: Step, item: Operation)
        requires { (item.0 ≤ self.now.count) × HasRoom page.old (take_line_of self.now s.0 item.0) }
        ensures { Wrote page.old page.new (take_line_of self.now s.0 item.0) }
    {
        put_at(page, s, b" take ", item);
        page.put_bytes(b" by");
        self.put_takers(page, item);
        end_line(page);
    }

    // The line that was found for a step.
    pub fn lay(&self, page: &mut Page, s: Step, found: Found)
        requires { (member found ≤ self.now.count) × HasRoom page.old (record_line (line_of self.now s.0 found)) }
        ensures { Wrote page.old page.new (record_line (line_of self.now s.0 found)) }
    {
        match found {
            Found::Put(o) => single_line(page, s, b" put ", o),
            Found::Takers(item) => self.take_line(page, s, item),
            Found::Empty(o) => single_line(page, s, b" empty by ", o),
        }
    }
}

// Is a node that is reached still there?
fn stays(object: Kind, nodes: &[u16], node: u16) -> bool
    requires { HasNodes node nodes.now }
    ensures { result ≡ stays object (marks nodes.now node) }
{
    match object {
        Kind::Queue => true,
        Kind::Stack | Kind::TwoWay => cell(nodes, node, NodeColumn::Mark) == 0,
    }
}

// The items that are left, from a node on.
#[derive(Clone, Copy, Drop)]
pub struct Left<'a> {
    object: Kind,
    nodes: &'a [u16],
    // the next node, and how many may still come
    node: u16,
    more: u16,
    ghost there: { FromHere nodes.now node },
}

impl Iterator for Left<'_> {
    type Item = u16;

    ghost use Rattle.lines.specs.Walks.{items};

    ghost next_gives = { YieldsFirst items };

    ghost remaining = { item_count items };

    // A `while`, since it passes nodes that are dead: how many is not known before.
    fn next(&mut self) -> Option<u16> {
        while self.more != 0 && self.node != 0 {
            let here = self.node;
            self.more -= 1;
            self.node = cell(self.nodes, here, NodeColumn::Next);
            if stays(self.object, self.nodes, here) {
                return Some(here);
            }
        }
        None
    }
}

impl<'a> Left<'a> {
    ghost use Rattle.wording.specs.Report.{spaced, left_line};
    ghost use Rattle.lines.specs.Walks.{items};

    pub fn new(object: Kind, nodes: &'a [u16], node: u16, count: u16) -> Left<'a>
        requires { NodesThere nodes.now count node }
        ensures { items result ≡ left_from object nodes.now node count }
    {
        Left {
            object,
            nodes,
            node,
            more: count,
        }
    }

    // How many they are.
    fn len(self) -> u16
        ensures { result ≡ length (items self.entry) }
    {
        self.count() as u16
    }

    // The items, each behind a space.
    fn put_items(self, page: &mut Page)
        requires { HasRoom page.old (spaced (items self)) }
        ensures { Wrote page.old page.new (spaced (items self.entry)) }
    {
        for item in self {
            put_spaced(page, item);
        }
    }

    // The last line: what is left.
    pub fn put_line(self, page: &mut Page)
        requires { HasRoom page.old (left_line (items self)) }
        ensures { Wrote page.old page.new (left_line (items self.entry)) }
    {
        page.put_labelled(b"left ", self.len());
        self.put_items(page);
        end_line(page);
    }
}
