// Salvaging a spoiled job file: its leading blocks into the lent work memory, the schedule shortened there, and a proper file written.
#![tactic(auto)]

ghost use Rattle.std.specs.Prelude.{◌≡◌, List, ℕ, ◌+◌, ◌*◌, ◌≤◌, ◌<◌, length, take, drop};
ghost use Rattle.memory.specs.Over.{over};
ghost use Rattle.block.specs.Block.{block_size, payload_size};
ghost use Rattle.job.specs.Answer.{answer_number};
ghost use Rattle.job.specs.Limits.{most_file, most_stream, Sound};
ghost use Rattle.job.specs.File.{payloads, file_refusal, stream_of};
ghost use Rattle.job.specs.Job.{job_of};
ghost use Rattle.theory.specs.Short.{KeptRun};
ghost use Rattle.remains.specs.Kept.{leading, records_end, entries_kept, shortened};
ghost use Rattle.remains.specs.Salvage.{salvage_refusal, salvaged, kept_entries, named_entries, salvage_number, counted, salvage_length, salvage_out, salvage_work};
ghost use Rattle.remains.specs.Claims.{Undamaged, Proper, BlocksOf};
ghost use Rattle.remains.specs.Looked.{looked};
ghost use Rattle.salvager.specs.Given.{given_length, given_kept, given_named};
ghost use Rattle.salvager.specs.Saved.{Saved};

use block::{BLOCK, PAYLOAD};
use job::{Limits, Refusal, Stream, schedule_at};
use memory::{clear, put_word};
use reader::take_block;
use writer::write;

// What a salvage gives: the length of the proper file, the entries kept and those that the header names.
#[derive(Clone, Copy, PartialEq, Eq)]
pub struct Salvaged {
    pub length: usize,
    pub kept: u16,
    pub named: u16,
}

// Blocks of a file, ascending, up to one that would be refused: their payloads go into the work memory, one behind the other. How many.
// The reader's `join` loops alike, but gives why and not how many; an answer of both is no plainer than two loops of three lines.
#[tactic(auto, unfolding(block::specs::Block::block_size, block::specs::Block::payload_size))]
fn gather(file: &[u8], count: usize, work: &mut [u8]) -> usize
    requires { (count < 65536) × (block_size * count ≤ length file.now) × (payload_size * count ≤ length work.old) }
    ensures count { result ≡ leading file.now 0 count }
    ensures payloads { work.new ≡ over (payloads file.now 0 result) work.old }
{
    for i in 0..count {
        let Ok(_) = take_block(file, i, work) else {
            return i;
        };
    }
    count
}

// Where the schedule of a stream begins: behind its header and its records.
#[tactic(auto, unfolding(remains::specs::Kept::records_end))]
fn records_end(stream: &Stream) -> usize
    ensures { result ≡ records_end stream.now }
{
    schedule_at(stream.operations()) + 1
}

// Shortens the schedule of a stream to the entries that are there: where it then ends.
fn shorten(s: &mut [u8]) -> usize
    requires { (6 ≤ length s.old) × (records_end s.old ≤ length s.old) }
    ensures end { result ≡ records_end s.old + entries_kept s.old }
    ensures stream { take result s.new ≡ shortened s.old }
{
    let stream = Stream::over(s);
    let start = records_end(&stream);
    let kept = usize::from(stream.schedule_length()).min(s.len() - start);
    put_word(&mut s[4..], kept as u16);
    start + kept
}

// The file of a stream of leading payloads, shortened in its place: the conditions in their order, then a write.
fn save(limits: Limits, s: &mut [u8], out: &mut [u8]) -> Result<Salvaged, Refusal>
    requires { Sound limits × (most_file limits ≤ length out.old) }
    ensures { Saved limits s.old out.old out.new result }
{
    if s.len() < 6 {
        return Err(Refusal::NotWhole);
    }
    let stream = Stream::over(s);
    stream.header(limits)?;
    let start = records_end(&stream);
    if s.len() < start {
        return Err(Refusal::NotWhole);
    }
    let named = stream.schedule_length();
    let end = shorten(s);
    let length = write(limits, &s[..end], out)?;
    Ok(Salvaged {
        length,
        kept: (end - start) as u16,
        named,
    })
}

// The same of a file: of as many leading blocks as a file may have.
fn save_file(
    limits: Limits,
    file: &[u8],
    work: &mut [u8],
    out: &mut [u8],
) -> Result<Salvaged, Refusal>
    requires { Sound limits × (most_stream limits ≤ length work.old) × (most_file limits ≤ length out.old) }
    ensures saved { Saved limits (looked limits file.now) out.old out.new result }
    ensures behind { drop (most_stream limits) work.new ≡ drop (most_stream limits) work.old }
{
    let count = (file.len() / BLOCK).min(limits.blocks);
    let n = gather(file, count, work);
    let end = PAYLOAD * n;
    save(limits, &mut work[..end], out)
}

// Salvages a spoiled file: document 02's number, the length of the proper file, which then stands in the output, and the entries kept and named. The work
// memory is left clear, but for a call whose memory is too small, which touches nothing.
pub fn salvage(
    limits: Limits,
    file: &[u8],
    work: &mut [u8],
    out: &mut [u8],
) -> Result<Salvaged, Refusal>
    requires { Sound limits }
    ensures number { answer_number result ≡ salvage_number limits file.now work.old out.old }
    ensures size { given_length result ≡ salvage_length limits file.now work.old out.old }
    ensures kept { given_kept result ≡ counted limits file.now work.old out.old (kept_entries file.now) }
    ensures named { given_named result ≡ counted limits file.now work.old out.old (named_entries file.now) }
    ensures out { out.new ≡ salvage_out limits file.now work.old out.old }
    ensures work { work.new ≡ salvage_work limits work.old out.old }
    ensures undamaged { file_refusal limits file.now ≡ 0 → Undamaged limits file.now }
    ensures proper { salvage_refusal limits file.now ≡ 0 → Proper limits file.now }
    ensures answers { salvage_refusal limits file.now ≡ 0 → (whole : List ℕ) → file_refusal limits whole ≡ 0 → BlocksOf whole file.now → KeptRun (job_of (stream_of whole)) (job_of (stream_of (salvaged file.now))) }
{
    let end = limits.most_stream();
    if work.len() < end {
        return Err(Refusal::ShortMemory);
    }
    if out.len() < limits.most_file() {
        return Err(Refusal::ShortMemory);
    }
    let answer = save_file(limits, file, work, out);
    clear(&mut work[..end]);
    answer
}
