// The calls of the bench for C and Rust, a function for each name of the C interface. Each gives number × 2^32 + length; include/bench.h says what each number means.
#![tactic(auto)]

ghost use Rattle.std.specs.Prelude.{◌≡◌, List, ℕ, ◌<◌, ◌^◌};
ghost use Rattle.job.specs.declared.Kind.TheVariants.{Queue};
ghost use Rattle.job.specs.Answer.{answer_number, answer_length};
ghost use Rattle.job.specs.Limits.{field};
ghost use Rattle.job.specs.Calls.{read_number, read_length, read_work, write_number, write_length, write_out};
ghost use Rattle.job.specs.File.{file_refusal, stream_of};
ghost use Rattle.job.specs.Job.{job_of};
ghost use Rattle.machine.specs.Explained.{Explained};
ghost use Rattle.theory.specs.Bounded.{Bounded};
ghost use Rattle.theory.specs.Cut.{SameAsCut};
ghost use Rattle.theory.specs.Short.{KeptRun};
ghost use Rattle.remains.specs.Salvage.{salvage_refusal, salvaged, salvage_number, salvage_length, salvage_out, salvage_work};
ghost use Rattle.remains.specs.Claims.{Undamaged, Proper, BlocksOf};
ghost use Rattle.replayer.specs.Replay.{job_in, processes_in, job_run, shut_in, replay_number, replay_length, replay_report, replay_work};
ghost use Rattle.bench.specs.Packed.{packed};

use job::{Limits, Refusal};

// An answer as one number.
#[tactic(auto, unfolding(crate::specs::Packed::packed))]
fn pack(answer: Result<usize, Refusal>) -> u64
    requires { answer_length answer < 2 ^ 32 }
    ensures { result ≡ packed (answer_number answer) (answer_length answer) }
{
    match answer {
        Ok(length) => length as u64,
        Err(refusal) => u64::from(refusal.number()) * 4294967296,
    }
}

// Replays the job in a file, with its window block or none: the report's length, and the report in the report memory.
#[unsafe(no_mangle)]
pub extern "C" fn bench_replay(
    file: &[u8],
    windows: &[u8],
    work: &mut [u8],
    report: &mut [u8],
) -> u64
    ensures answer { result ≡ packed (replay_number field file.now windows.now work.old report.old) (replay_length field file.now windows.now work.old report.old) }
    ensures report { report.new ≡ replay_report field file.now windows.now work.old report.old }
    ensures work { work.new ≡ replay_work field work.old report.old }
    ensures explained { replay_number field file.now windows.now work.old report.old ≡ 0 → Explained (job_run file.now windows.now) (job_run file.now windows.now).steps }
    ensures bounded { replay_number field file.now windows.now work.old report.old ≡ 0 → (job_in file.now).object ≡ Queue → Bounded (job_run file.now windows.now) (job_run file.now windows.now).steps (processes_in file.now) }
    ensures cut { replay_number field file.now windows.now work.old report.old ≡ 0 → SameAsCut (shut_in file.now windows.now) (job_in file.now) }
{
    pack(replayer::replay(Limits::field(), file, windows, work, report))
}

// Reads a job file into the work memory: L, and the stream and zeros in the first 17,710 work bytes.
#[unsafe(no_mangle)]
pub extern "C" fn bench_read(file: &[u8], work: &mut [u8]) -> u64
    ensures answer { result ≡ packed (read_number field file.now work.old) (read_length field file.now work.old) }
    ensures work { work.new ≡ read_work field file.now work.old }
{
    pack(reader::read(Limits::field(), file, work))
}

// Writes the job file of a stream: its length, and the file in the output.
#[unsafe(no_mangle)]
pub extern "C" fn bench_write(stream: &[u8], out: &mut [u8]) -> u64
    ensures answer { result ≡ packed (write_number field stream.now out.old) (write_length field stream.now out.old) }
    ensures out { out.new ≡ write_out field stream.now out.old }
{
    pack(writer::write(Limits::field(), stream, out))
}

// Salvages a spoiled job file: the length of the proper file of what is kept, and that file in the output.
#[unsafe(no_mangle)]
pub extern "C" fn bench_salvage(file: &[u8], work: &mut [u8], out: &mut [u8]) -> u64
    ensures answer { result ≡ packed (salvage_number field file.now work.old out.old) (salvage_length field file.now work.old out.old) }
    ensures out { out.new ≡ salvage_out field file.now work.old out.old }
    ensures work { work.new ≡ salvage_work field work.old out.old }
    ensures undamaged { file_refusal field file.now ≡ 0 → Undamaged field file.now }
    ensures proper { salvage_refusal field file.now ≡ 0 → Proper field file.now }
    ensures answers { salvage_refusal field file.now ≡ 0 → (whole : List ℕ) → file_refusal field whole ≡ 0 → BlocksOf whole file.now → KeptRun (job_of (stream_of whole)) (job_of (stream_of (salvaged file.now))) }
{
    let answer = salvager::salvage(Limits::field(), file, work, out);
    pack(answer.map(|salvaged| salvaged.length))
}
