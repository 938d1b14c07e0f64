// Text written on a page, front to back: bytes, and numbers in decimal.
#![tactic(auto)]

ghost use Rattle.std.specs.Prelude.{◌≡◌, ◌≤◌, ◌++◌, length, take};
ghost use Rattle.basics.specs.Text.{decimal};

// How many digits a number has. The kit's `checked_ilog10` was tried and is slower: by a test that is guessed, the text behind the number need not wait.
fn width(n: u16) -> usize
    ensures { result ≡ length (decimal n) }
{
    if n < 10 {
        return 1;
    }
    if n < 100 {
        return 2;
    }
    if n < 1000 {
        return 3;
    }
    if n < 10000 {
        return 4;
    }
    5
}

// Lent memory that is written from its front on. That there is room, `HasRoom`, is asked for each text: it is between the page and the text.
#[derive(Drop)]
pub struct Page<'a> {
    memory: &'a mut [u8],
    // where the next byte goes
    at: usize,
}

impl<'a> Page<'a> {
    ghost use Rattle.text.specs.Pages.{Opens, HasRoom, Wrote};

    // A page on which nothing stands.
    pub fn new(memory: &'a mut [u8]) -> Page<'a>
        ensures { Opens memory.entry result }
    {
        Page { memory, at: 0 }
    }

    // The bytes that stand on it.
    pub fn written(&self) -> &[u8]
        requires { self.now.at ≤ length self.now.memory.now }
        ensures { result.now ≡ take self.now.at self.now.memory.now }
    {
        &self.memory[..self.at]
    }

    // The bytes of a text. Inlined, so that a label is stored by its own length: a call of its own takes longer.
    #[inline(always)]
    pub fn put_bytes(&mut self, s: &[u8])
        requires { HasRoom self.old s.now }
        ensures { Wrote self.old self.new s.now }
    {
        let end = self.at + s.len();
        self.memory[self.at..end].copy_from_slice(s);
        self.at = end;
    }

    // A number in decimal, from its last digit to its first.
    fn put_decimal(&mut self, n: u16)
        requires { HasRoom self.old (decimal n) }
        ensures { Wrote self.old self.new (decimal n) }
    {
        let end = self.at + width(n);
        let mut rest = n;
        for i in (self.at..end).rev() {
            self.memory[i] = 48 + (rest % 10) as u8;
            rest /= 10;
        }
        self.at = end;
    }

    // The bytes of a text and a number in decimal.
    #[inline(always)]
    pub fn put_labelled(&mut self, label: &[u8], n: u16)
        requires { HasRoom self.old (label.now ++ decimal n) }
        ensures { Wrote self.old self.new (label.now ++ decimal n) }
    {
        self.put_bytes(label);
        self.put_decimal(n);
    }
}
