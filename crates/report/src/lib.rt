// The report of a finished run, from the rows and cells that it leaves.
#![tactic(auto)]

ghost use Rattle.std.specs.Prelude.{◌≡◌, ◌++◌, ◌≤◌, ◌<◌, length};
ghost use Rattle.basics.specs.Maps as Maps;
ghost use Rattle.rows.specs.Nodes.{HasNodes, uppers};
ghost use Rattle.rows.specs.Operations.{HasOps, cells, dropped_mark};
ghost use Rattle.rows.specs.declared.OpColumn.TheVariants.{Taken};
ghost use Rattle.text.specs.Pages.{HasRoom, Wrote};
ghost use Rattle.job.specs.Limits.{field};
ghost use Rattle.job.specs.Stream.{stream_length};
ghost use Rattle.job.specs.Job.{job_of};
ghost use Rattle.journal.specs.Journal.{Agrees};
ghost use Rattle.lines.specs.Members.{climb, «first_node», UppersThere};
ghost use Rattle.lines.specs.Walks.{IsOf, items};
ghost use Rattle.wording.specs.Report.{operation_lines, record_lines, lost_line, left_line, report};
ghost use Rattle.report.specs.Found.{here, found, found_lines, Within};
ghost use Rattle.report.specs.Reported.{Leaves, Reported};

use job::{Heading, Kind, Limits, Operation, Step, Stream};
use lines::{Found, Left, Takers, bound_takers, object_line, operation_line};
use machine::Finish;
use rows::{NodeColumn, OpColumn, cell};
use text::Page;

// The cells of the bounds of takers: a row for each item.
const CELLS: usize = lines::BOUNDS * (Limits::OPERATIONS + 1);

// The lines of operations, in number order.
fn operation_lines(page: &mut Page, stream: &Stream, ops: &[u16], count: u16)
    requires stream_in_bounds { (stream_length stream.now ≤ length stream.now) × (count ≡ (job_of stream.now).count) × ((job_of stream.now).steps < dropped_mark) × HasOps count ops.now × Agrees (job_of stream.now) (job_of stream.now).steps (cells ops.now) }
    requires count_in_bounds { HasRoom page.old (operation_lines (job_of stream.now) (job_of stream.now).steps count) }
    ensures { Wrote page.old page.new (operation_lines (job_of stream.now) (job_of stream.now).steps count) }
{
    for o in 0..count {
        operation_line(page, stream, ops, Operation(o + 1));
    }
}

// What stands at its own step, if that is step s.
fn here(own: u16, s: Step, found: Found) -> Option<Found>
    ensures { result ≡ here own s.0 found }
{
    if own == s.0 { Some(found) } else { None }
}

// What stands at a step, by the row of the operation that made it: none of an idle step.
fn found_at(ops: &[u16], s: Step, o: Operation) -> Option<Found>
    requires { HasOps o.0 ops.now × (1 ≤ o.0 → HasOps (cells ops.now Taken o.0) ops.now) }
    ensures { result ≡ found (cells ops.now) s.0 o }
{
    if o.0 == 0 {
        return None;
    }
    let link = cell(ops, o.0, OpColumn::Link);
    if link != 0 {
        return here(link, s, Found::Put(o));
    }
    let item = cell(ops, o.0, OpColumn::Taken);
    if item != 0 {
        let stands = cell(ops, item, OpColumn::Stands);
        return here(stands, s, Found::Takers(Operation(item)));
    }
    match cell(ops, o.0, OpColumn::Last) {
        0 => None,
        rows::DROPPED => None,
        _ => here(cell(ops, o.0, OpColumn::Start), s, Found::Empty(o)),
    }
}

// The lines of the steps up to `reach`, in step order.
fn step_lines(page: &mut Page, takers: &Takers, ops: &[u16], by: &[u16], reach: Step)
    requires { Within ops.now by.now takers.now.count reach.0 × IsOf ops.now takers.now.count takers.now × HasRoom page.old (record_lines (found_lines (cells ops.now) (Maps.at by.now) takers.now.count reach.0)) }
    ensures { Wrote page.old page.new (record_lines (found_lines (cells ops.now) (Maps.at by.now) takers.now.count reach.0)) }
{
    for before in 0..reach.0 {
        let s = Step(before + 1);
        let o = Operation(by[s.0 as usize]);
        if let Some(found) = found_at(ops, s, o) {
            takers.lay(page, s, found);
        }
    }
}

// The record up to step `reach`.
fn record_lines(page: &mut Page, ops: &[u16], by: &[u16], count: u16, reach: Step)
    requires { (count ≤ field.operations) × Within ops.now by.now count reach.0 × HasRoom page.old (record_lines (found_lines (cells ops.now) (Maps.at by.now) count reach.0)) }
    ensures { Wrote page.old page.new (record_lines (found_lines (cells ops.now) (Maps.at by.now) count reach.0)) }
{
    let mut bounds = [0u16; CELLS];
    bound_takers(&mut bounds, ops, count);
    let takers = Takers::new(ops, &bounds, count);
    step_lines(page, &takers, ops, by, reach);
}

// The uppermost of the nodes that stand on the sentinel, or the sentinel itself.
fn uppermost(nodes: &[u16], count: u16) -> u16
    requires { UppersThere nodes.now count }
    ensures { result ≡ climb (uppers nodes.now) 0 count }
{
    let mut i = 0;
    for _climbed in 0..count {
        let upper = cell(nodes, i, NodeColumn::Upper);
        if upper == 0 {
            return i;
        }
        i = upper;
    }
    i
}

// The node from which the items that are left are walked.
fn first_node(object: Kind, nodes: &[u16], head: u16, top: u16, count: u16) -> u16
    requires { HasNodes head nodes.now × UppersThere nodes.now count }
    ensures { result ≡ first_node object nodes.now head top count }
{
    match object {
        Kind::Queue => cell(nodes, head, NodeColumn::Next),
        Kind::Stack => top,
        Kind::TwoWay => uppermost(nodes, count),
    }
}

// The rounds that a queue lost; another object has no such line.
fn lost_line(page: &mut Page, object: Kind, lost: u16)
    requires { HasRoom page.old (lost_line object lost) }
    ensures { Wrote page.old page.new (lost_line object lost) }
{
    match object {
        Kind::Queue => {
            page.put_labelled(b"lost ", lost);
            page.put_bytes(b"\n");
        }
        Kind::Stack => {}
        Kind::TwoWay => {}
    }
}

// The lines behind the record: the rounds that a queue lost, and what is left.
fn last_lines(page: &mut Page, object: Kind, lost: u16, left: Left)
    requires { HasRoom page.old (lost_line object lost ++ left_line (items left)) }
    ensures { Wrote page.old page.new (lost_line object lost ++ left_line (items left.entry)) }
{
    lost_line(page, object, lost);
    left.put_line(page);
}

// The report of a finished run, at the front of a memory, and its length. Steps behind `end.reach` are idle and have no line.
pub fn write_report(
    out: &mut [u8],
    stream: &Stream,
    h: Heading,
    ops: &[u16],
    by: &[u16],
    nodes: &[u16],
    end: Finish,
) -> usize
    requires { (stream_length stream.now ≤ length stream.now) × (length (report (job_of stream.now)) ≤ length out.old) × Leaves (job_of stream.now) h ops.now by.now nodes.now end }
    ensures { Reported out.old out.new result (report (job_of stream.now)) }
{
    let object = h.object;
    let node = first_node(object, nodes, end.object.head, end.object.top, h.count);
    let left = Left::new(object, nodes, node, h.count);
    let mut page = Page::new(out);
    object_line(&mut page, object);
    operation_lines(&mut page, stream, ops, h.count);
    record_lines(&mut page, ops, by, h.count, end.reach);
    last_lines(&mut page, object, end.lost, left);
    page.written().len()
}
