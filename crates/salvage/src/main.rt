// Salvages the spoiled job file on standard input: writes the proper file to standard output, then `kept A of B entries` to standard error; or only `refused`, a
// space and the number to standard error.
#![tactic(auto)]

ghost use Rattle.std.specs.Bool.{OnTrue};
ghost use Rattle.std.specs.Io.KnownBytes.{Appends};
ghost use Rattle.text.specs.Pages.{HasRoom, Wrote};
ghost use Rattle.remains.specs.Line.{kept_line};

use console::{read_full, refuse, show};
use job::Limits;
use std::io::Write;
use text::Page;

// Room for the line: its words have 18 bytes, and each of its two numbers at most five digits.
const LINE: usize = 28;

// The line on the entries that are kept, of those that the header names.
fn put_line(page: &mut Page, kept: u16, named: u16)
    requires { HasRoom page.old (kept_line kept named) }
    ensures { Wrote page.old page.new (kept_line kept named) }
{
    page.put_labelled(b"kept ", kept);
    page.put_labelled(b" of ", named);
    page.put_bytes(b" entries\n");
}

// Says it, and whether it was written whole: as `show`, no error of the program.
fn tell<W: Write>(to: &mut W, kept: u16, named: u16) -> bool
    ensures { OnTrue result (Appends (W.contents to.old) (W.contents to.new) (kept_line kept named)) }
{
    let mut line = [0u8; LINE];
    let mut page = Page::new(&mut line);
    put_line(&mut page, kept, named);
    let said = page.written();
    show(to, said, said.len())
}

// No more is read than the longest file has, since nothing behind it matters. The line is written only behind a file that was written whole. The input has a
// memory and a length beside it, since nothing is allocated.
fn main(rt: HostRuntime) {
    let mut file = [0u8; Limits::FILE];
    let n = read_full(&mut rt.stdin(), &mut file);
    let mut work = [0u8; Limits::STREAM];
    let mut out = [0u8; Limits::FILE];
    match salvager::salvage(Limits::field(), &file[..n], &mut work, &mut out) {
        Ok(salvaged) => {
            show(&mut rt.stdout(), &out, salvaged.length)
                && tell(&mut rt.stderr(), salvaged.kept, salvaged.named)
        }
        Err(refusal) => refuse(&mut rt.stderr(), refusal.number()),
    };
}
