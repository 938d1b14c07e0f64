// The block of a job file: its two sums, what it gives, and how it is made.
#![tactic(auto)]

ghost use Rattle.std.specs.Prelude.{◌≡◌, ◌≤◌, ◌++◌, length, IfOk};
ghost use Rattle.basics.specs.Words.{word_bytes};
ghost use Rattle.memory.specs.Over.{over};
ghost use Rattle.block.specs.Block.{block_size, payload_size, summed_size, add_byte, sums, block, payload_of, block_refusal};
ghost use Rattle.block.specs.Checked.{number_of, bytes_of, filled};

use memory::{clear, copy, put_word, word_at};

// The two sums of a block.
#[derive(Clone, Copy)]
struct Sums {
    pub a: u16,
    pub b: u16,
}

impl Sums {
    // The sums after one more byte.
    #[tactic(auto, unfolding(crate::specs::Block::add_byte))]
    fn add(self, x: u8) -> Sums
        ensures { result ≡ add_byte self x }
    {
        let a = self.a.wrapping_add(u16::from(x));
        let b = self.b.wrapping_add(a);
        Sums { a, b }
    }

    // The sums of some bytes.
    #[tactic(auto, using(crate::proofs::AddBytes::add_next, crate::proofs::AddBytes::add_end), unfolding(crate::specs::Block::sums))]
    fn of(s: &[u8]) -> Sums
        ensures { result ≡ sums s.now }
    {
        let mut so_far = Sums { a: 1, b: 0 };
        for x in s {
            so_far = so_far.add(*x);
        }
        so_far
    }
}

// Bytes of a block.
pub const BLOCK: usize = 512;

// Bytes of its payload.
pub const PAYLOAD: usize = 506;

// Where its payload starts.
const FRONT: usize = 2;

// Where sum a and sum b stand.
const SUM_A: usize = FRONT + PAYLOAD;

const SUM_B: usize = SUM_A + 2;

// Why a block gives no payload.
#[derive(Clone, Copy, Debug, PartialEq, Eq)]
pub enum BlockError {
    SumDiffers,
    Misplaced,
}

// The payload of the block at a position, or why it gives none.
#[tactic(auto, unfolding(crate::specs::Block::block_size, crate::specs::Block::payload_size, crate::specs::Block::summed_size, crate::specs::Block::payload_of))]
pub fn check(b: &[u8], position: u16) -> Result<&[u8], BlockError>
    requires { length b.now ≡ block_size }
    ensures number { number_of result ≡ block_refusal position b.now }
    ensures payload { IfOk result (λ p. p.now ≡ payload_of b.now) }
{
    let s = Sums::of(&b[..SUM_A]);
    if word_at(b, SUM_A) != s.a {
        return Err(BlockError::SumDiffers);
    }
    if word_at(b, SUM_B) != s.b {
        return Err(BlockError::SumDiffers);
    }
    if word_at(b, 0) != position {
        return Err(BlockError::Misplaced);
    }
    let payload = &b[FRONT..SUM_A];
    Ok(payload)
}

// What the block at a position gives: its payload goes to the front of a memory, or nothing does.
#[tactic(auto, unfolding(crate::specs::Block::block_size, crate::specs::Block::payload_size, crate::specs::Block::summed_size))]
pub fn give(b: &[u8], position: u16, to: &mut [u8]) -> Result<(), BlockError>
    requires { (length b.now ≡ block_size) × (payload_size ≤ length to.old) }
    ensures number { number_of result ≡ block_refusal position b.now }
    ensures payload { to.new ≡ over (bytes_of result b.now) to.old }
{
    let payload = check(b, position)?;
    copy(to, payload);
    Ok(())
}

// A payload and zeros behind it.
#[tactic(auto, unfolding(crate::specs::Block::block_size, crate::specs::Block::payload_size, crate::specs::Block::summed_size))]
fn put_payload(to: &mut [u8], payload: &[u8])
    requires { (payload_size ≤ length to.old) × (length payload.now ≤ payload_size) }
    ensures { to.new ≡ over (filled payload.now) to.old }
{
    copy(to, payload);
    let end = payload.len();
    clear(&mut to[end..PAYLOAD]);
}

// A block's number and its payload.
#[tactic(auto, unfolding(crate::specs::Block::block_size, crate::specs::Block::payload_size, crate::specs::Block::summed_size))]
fn put_front(to: &mut [u8], number: u16, payload: &[u8])
    requires { (summed_size ≤ length to.old) × (length payload.now ≤ payload_size) }
    ensures { to.new ≡ over (word_bytes number ++ filled payload.now) to.old }
{
    put_word(to, number);
    put_payload(&mut to[FRONT..], payload);
}

// A block's two sums.
fn put_sums(to: &mut [u8], s: Sums)
    requires { 4 ≤ length to.old }
    ensures { to.new ≡ over (word_bytes s.a ++ word_bytes s.b) to.old }
{
    put_word(to, s.a);
    put_word(&mut to[2..], s.b);
}

// The block of a number and a payload, at the front of a memory. A short payload has zeros behind it.
#[tactic(auto, unfolding(crate::specs::Block::block_size, crate::specs::Block::payload_size, crate::specs::Block::summed_size))]
pub fn make(to: &mut [u8], number: u16, payload: &[u8])
    requires { (block_size ≤ length to.old) × (length payload.now ≤ payload_size) }
    ensures { to.new ≡ over (block number (filled payload.now)) to.old }
{
    put_front(to, number, payload);
    let s = Sums::of(&to[..SUM_A]);
    put_sums(&mut to[SUM_A..], s);
}
