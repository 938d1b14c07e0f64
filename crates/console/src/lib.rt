// What the programs read and say: an input into a lent memory, a refusal, and the bytes that a call left in front of a lent memory.
#![tactic(auto)]

ghost use Rattle.std.specs.Bool.{OnTrue};
ghost use Rattle.std.specs.Prelude.{◌≡◌, ◌<◌, false, length, take};
ghost use Rattle.std.specs.Io.KnownBytes.{Appends, Consumes, Keeps};
ghost use Rattle.console.specs.Counts.{IsPrefixLen};
ghost use Rattle.console.specs.Said.{refused_line, Shown};

use std::io::{Read, Write};

// Reads until a memory is full, the input ends or a read fails: how many bytes, which then stand in front.
// A `while`, since a read gives as many bytes as it likes; std's `read_exact` says little where the input ends before.
pub fn read_full<R: Read>(from: &mut R, to: &mut [u8]) -> usize
    ensures count { IsPrefixLen result to.new }
    ensures bytes { Consumes (R.remaining from.old) (R.remaining from.new) (take result to.new) }
{
    let mut done = 0;
    while done < to.len() {
        let Ok(n) = from.read(&mut to[done..]) else {
            break;
        };
        if n == 0 {
            break;
        }
        done += n;
    }
    done
}

// `refused`, a space, a number and a newline, and whether they were written whole: the programs ask no more of a failed write, so it is no error of theirs.
pub fn refuse<W: Write>(to: &mut W, number: u8) -> bool
    ensures { OnTrue result (Appends (W.contents to.old) (W.contents to.new) (refused_line number)) }
{
    writeln!(to, "refused {number}").is_ok()
}

// The first bytes of a memory, and whether they were written whole: never where the memory has fewer, and then nothing is written. A bool, as of `refuse`.
pub fn show<W: Write>(to: &mut W, bytes: &[u8], count: usize) -> bool
    ensures whole { OnTrue result (Shown (W.contents to.old) (W.contents to.new) bytes.now count) }
    ensures short { length bytes.now < count → (result ≡ false) × Keeps (W.contents to.old) (W.contents to.new) }
{
    if bytes.len() < count {
        return false;
    }
    to.write_all(&bytes[..count]).is_ok()
}

#[cfg(test)]
mod tests {
    use super::{read_full, refuse, show};
    use std::io;
    use std::io::Read;
    use std::test::Fail;

    #[test]
    fn refusals(rt: HostRuntime) -> Result<(), Fail> {
        let mut said = Vec::new(rt.alloc());
        assert!(rt; refuse(&mut said, 7));
        assert!(rt; refuse(&mut said, 13));
        assert_eq!(rt; said.as_slice(), b"refused 7\nrefused 13\n".as_slice());
        Ok(())
    }

    #[test]
    fn first_bytes(rt: HostRuntime) -> Result<(), Fail> {
        let mut said = Vec::new(rt.alloc());
        assert!(rt; show(&mut said, b"left 0", 4));
        assert!(rt; !show(&mut said, b"left 0", 7));
        assert_eq!(rt; said.as_slice(), b"left".as_slice());
        Ok(())
    }

    // Gives two bytes at a time, so often, and fails then.
    #[derive(Drop)]
    struct Pairs(u8);

    impl Read for Pairs {
        fn read(&mut self, buf: &mut [u8]) -> io::Result<usize> {
            if self.0 == 0 || buf.len() < 2 {
                return Err(io::Error::from(io::ErrorKind::Other));
            }
            self.0 -= 1;
            buf[0] = 8;
            buf[1] = 9;
            Ok(2)
        }
    }

    #[test]
    fn inputs(rt: HostRuntime) {
        let mut memory = [0u8; 5];
        assert_eq!(rt; read_full(&mut b"abc".as_slice(), &mut memory), 3);
        assert_eq!(rt; memory, [b'a', b'b', b'c', 0, 0]);
        assert_eq!(rt; read_full(&mut b"defghi".as_slice(), &mut memory), 5);
        assert_eq!(rt; memory, *b"defgh");
        assert_eq!(rt; read_full(&mut Pairs(1), &mut memory), 2);
        assert_eq!(rt; memory, [8, 9, b'f', b'g', b'h']);
        assert_eq!(rt; read_full(&mut Pairs(3), &mut memory), 4);
    }
}
