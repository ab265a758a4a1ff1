// What is written: the numbers and the words of answers.
ghost use Rattle.std.specs.Prelude.{◌≡◌, ◌+◌, ◌≤◌, length};

// The most digits of a number of 64 bits.
const DIGITS: usize = 20;

// A lent buffer that is written from its front on: the first `len` bytes are written.
#[derive(Drop)]
pub struct Output<'a> {
    bytes: &'a mut [u8],
    len: usize,
    ghost within: { len ≤ length bytes.now },
}

impl<'a> Output<'a> {
    ghost use Rattle.lines.specs.Appending.{decimal_text, capacity, written, Appends};

    // Nothing is written yet.
    pub fn new(bytes: &'a mut [u8]) -> Output<'a>
        ensures none { result.len ≡ 0 }
        ensures room { capacity result ≡ length bytes.old }
        ensures same_buffer { result.bytes.ghost_name ≡ bytes.entry.ghost_name }
    {
        Output { bytes, len: 0 }
    }

    // What is written.
    pub fn written(&self) -> &[u8]
        ensures { result.now ≡ written self.now }
    {
        &self.bytes[..self.len]
    }

    // Begins anew.
    pub fn clear(&mut self)
        ensures none { self.new.len ≡ 0 }
        ensures room { capacity self.new ≡ capacity self.old }
        ensures same_buffer { self.new.bytes.ghost_name ≡ self.old.bytes.ghost_name }
    {
        self.len = 0;
    }

    // Appends bytes.
    pub fn append(&mut self, text: &[u8])
        requires { self.old.len + length text.now ≤ capacity self.old }
        ensures { Appends self.old text.now self.new }
    {
        let end = self.len + text.len();
        self.bytes[self.len..end].copy_from_slice(text);
        self.len = end;
    }

    // Appends a number in plain decimal. The digits are written into an array first, from the last one on.
    pub fn append_decimal(&mut self, n: u64)
        requires { self.old.len + length (decimal_text n) ≤ capacity self.old }
        ensures { Appends self.old (decimal_text n) self.new }
    {
        let mut text = [0u8; DIGITS];
        let mut from = DIGITS;
        let mut m = n;
        while 10 <= m {
            from -= 1;
            text[from] = digits::last_digit(m);
            m /= 10;
        }
        from -= 1;
        text[from] = digits::last_digit(m);
        self.append(&text[from..]);
    }
}
