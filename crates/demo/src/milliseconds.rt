// Microseconds printed as milliseconds, with three digits after the point.
use std::fmt;

#[derive(Drop)]
pub struct Milliseconds(pub u64);

impl fmt::Display for Milliseconds {
    fn fmt<W: fmt::Write>(&self, f: &mut fmt::Formatter<W>) -> fmt::Result {
        write!(f, "{}.{:03} ms", self.0 / 1000, self.0 % 1000)
    }
}
