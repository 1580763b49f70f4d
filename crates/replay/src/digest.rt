// The digest of docs/TRACES.md: every field of a state in its declared order, a word at a time.
use timers::TimerTable;

#[derive(Clone, Copy)]
pub struct Digest(u64);

impl Digest {
    pub fn new() -> Digest {
        Digest(0)
    }

    pub fn value(self) -> u64 {
        self.0
    }

    pub fn word(&mut self, w: u64) {
        let a = self.0 ^ w;
        let b = a.wrapping_add(a << 10);
        let c = b ^ (b >> 6);
        let d = c.wrapping_add(c << 3);
        self.0 = d ^ (d >> 11);
    }

    pub fn flag(&mut self, b: bool) {
        self.word(u64::from(b));
    }

    pub fn bytes(&mut self, bytes: &[u8]) {
        for b in bytes {
            self.word(u64::from(*b));
        }
    }
}

pub fn of_timers(t: &TimerTable) -> u64 {
    let mut h = Digest::new();
    for d in &t.expires {
        h.word(d.at.us);
        h.flag(d.set);
    }
    h.value()
}
