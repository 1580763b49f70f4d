// ASCII into a buffer: a page, on which each method writes after what stands there. A byte past the buffer's end is dropped, so nothing traps.
ghost use Rattle.std.specs.Prelude.{◌<◌};

#[derive(Drop)]
pub struct Page<'a> {
    out: &'a mut [u8],
    at: usize,
}

fn digit(d: u8) -> u8
    requires { d < 16 }
{
    if d < 10 { d + b'0' } else { d - 10 + b'a' }
}

impl<'a> Page<'a> {
    pub fn new(out: &'a mut [u8]) -> Page<'a> {
        Page { out, at: 0 }
    }

    // What was written.
    pub fn written(&self) -> &[u8] {
        self.out.get(..self.at).unwrap_or_default()
    }

    pub fn byte(&mut self, b: u8) {
        if self.at < self.out.len() {
            self.out[self.at] = b;
            self.at += 1;
        }
    }

    // Two hexadecimal digits.
    pub fn pair(&mut self, b: u8) {
        self.byte(digit(b / 16));
        self.byte(digit(b % 16));
    }

    // Two for each byte.
    pub fn pairs(&mut self, bytes: &[u8]) {
        for b in bytes {
            self.pair(*b);
        }
    }

    // A space, and sixteen hexadecimal digits.
    pub fn number(&mut self, x: u64) {
        self.byte(b' ');
        self.pairs(&x.to_be_bytes());
    }

    // A space, and 0 or 1.
    pub fn flag(&mut self, b: bool) {
        self.byte(b' ');
        self.byte(if b { b'1' } else { b'0' });
    }

    pub fn text(&mut self, s: &str) {
        for b in s.as_bytes() {
            self.byte(*b);
        }
    }

    // How a line begins: the call and its refusal.
    pub fn head(&mut self, call: u8, refusal: u8) {
        self.pair(call);
        self.byte(b' ');
        self.pair(refusal);
    }

    // How a line ends: the digest of the state.
    pub fn end(&mut self, digest: u64) {
        self.number(digest);
        self.byte(b'\n');
    }

    // A line that tells where the trace ended, and how: `what` stands before the number of records, `how` after it.
    pub fn note(&mut self, what: &str, n: u64, how: &str) {
        self.text(what);
        self.number(n);
        self.text(how);
        self.byte(b'\n');
    }
}
