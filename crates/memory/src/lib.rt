// Lent bytes: a number read from two of them or written to two, a copy, and zeros.
#![tactic(auto)]

ghost use Rattle.std.specs.Prelude.{◌≡◌, ◌+◌, ◌<◌, ◌≤◌, length, replicate};
ghost use Rattle.basics.specs.Words.{word, word_bytes};
ghost use Rattle.memory.specs.Over.{over};

// The number in the two bytes at an index.
#[tactic(auto, unfolding(basics::specs::Words::word, basics::specs::Maps::at))]
pub fn word_at(s: &[u8], i: usize) -> u16
    requires { i + 1 < length s.now }
    ensures { result ≡ word s.now i }
{
    u16::from_be_bytes([s[i], s[i + 1]])
}

// A number's two bytes, at the front.
#[tactic(auto, unfolding(basics::specs::Words::word_bytes))]
pub fn put_word(to: &mut [u8], n: u16)
    requires { 2 ≤ length to.old }
    ensures { to.new ≡ over (word_bytes n) to.old }
{
    let [high, low] = n.to_be_bytes();
    to[0] = high;
    to[1] = low;
}

// All bytes of one memory, at the front of another. A loop, since `copy_from_slice` calls memmove: `include/bench.h` says that memset is all that the
// library needs of C.
pub fn copy(to: &mut [u8], from: &[u8])
    requires { length from.now ≤ length to.old }
    ensures { to.new ≡ over from.now to.old }
{
    for (i, x) in from.iter().enumerate() {
        to[i] = *x;
    }
}

// Zeros throughout.
pub fn clear(to: &mut [u8])
    ensures { to.new ≡ replicate (length to.old) 0 }
{
    to.fill(0);
}
