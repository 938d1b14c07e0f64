// Replays the job file on standard input, with the window block in the file that the argument names: prints its report, or `refused`, a space and the number.
#![tactic(auto)]

ghost use Rattle.console.specs.Counts.{IsPrefixLen};

use block::BLOCK;
use console::{read_full, refuse, show};
use job::Limits;
use std::env::FillError;
use std::fs;
use std::io::Read;
use std::rt::{Env, Files};

// One byte more than the longest file, and than a block, so that a longer input is seen to be longer: its length is refused.
const INPUT: usize = Limits::FILE + 1;

const WINDOWS: usize = BLOCK + 1;

// The longest name of a file.
const NAME: usize = 4095;

// How many bytes a file has, which then stand in front: at most as many as the memory has, and as many where it cannot be read, so that it
// is refused as a longer one is: no `Err`, since the library numbers the refusal.
fn load<R: Read>(from: &mut R, to: &mut [u8]) -> usize
    ensures { IsPrefixLen result to.new }
{
    let Ok(front) = from.read(to) else {
        return to.len();
    };
    let more = read_full(from, &mut to[front..]);
    (front + more).min(to.len())
}

// The same of the file that the argument names; without one it is empty. A name that is no text cannot be opened.
fn load_windows<R: Env + Files>(rt: &R, to: &mut [u8]) -> usize
    ensures { IsPrefixLen result to.new }
{
    let mut name = [0u8; NAME];
    let Err(FillError::NotPresent) = rt.arg(2, &mut name) else {
        return to.len();
    };
    let length = match rt.arg(1, &mut name) {
        Ok(length) => length,
        Err(FillError::NotPresent) => return 0,
        Err(FillError::TooLong) => return to.len(),
    };
    let Ok(name) = str::from_utf8(&name[..length]) else {
        return to.len();
    };
    let Ok(mut file) = fs::open(rt, name) else {
        return to.len();
    };
    load(&mut file, to)
}

// Inputs have a memory and a length beside it, since nothing is allocated.
fn main(rt: HostRuntime) {
    let mut file = [0u8; INPUT];
    let n = read_full(&mut rt.stdin(), &mut file);
    let mut windows = [0u8; WINDOWS];
    let m = load_windows(&rt, &mut windows);
    let mut work = [0u8; Limits::STREAM];
    let mut report = [0u8; Limits::REPORT];
    match replayer::replay(
        Limits::field(),
        &file[..n],
        &windows[..m],
        &mut work,
        &mut report,
    ) {
        Ok(length) => show(&mut rt.stdout(), &report, length),
        Err(refusal) => refuse(&mut rt.stdout(), refusal.number()),
    };
}
