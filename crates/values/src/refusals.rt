// Why a call is refused. docs/RULES.md, "Refusals".
ghost use Rattle.std.specs.Prelude.{◌≡◌};
ghost use Rattle.values.specs.Refusals.{form_of, number};

use std::error::Error;
use std::fmt;

// As an answer's first byte says it where the call was accepted.
pub const ACCEPTED: u8 = 0;

// Their numbers are part of what C sees.
#[derive(Clone, Copy, Debug, PartialEq, Eq)]
pub enum Refusal {
    Malformed = 1,
    InternalError = 2,
    ConnectionIdLimitError = 3,
    ProtocolViolation = 4,
    Done = 5,
    NoSlot = 6,
    Spent = 7,
    FarDeadline = 8,
}

impl From<Refusal> for u8 {
    ghost from_gives = { λ r n. n ≡ number r };

    fn from(r: Refusal) -> u8 {
        r as u8
    }
}

impl fmt::Display for Refusal {
    fn fmt<W: fmt::Write>(&self, f: &mut fmt::Formatter<W>) -> fmt::Result {
        f.write_str(match self {
            Refusal::Malformed => "the state or an argument has not its form",
            Refusal::InternalError => "internal error",
            Refusal::ConnectionIdLimitError => "more connection IDs than the limit",
            Refusal::ProtocolViolation => "protocol violation",
            Refusal::Done => "nothing left to do",
            Refusal::NoSlot => "no slot is free",
            Refusal::Spent => "the sequences are spent",
            Refusal::FarDeadline => "the deadline is too far",
        })
    }
}

impl Error for Refusal {}

// Malformed, unless the state and the arguments have their forms.
pub fn form(ok: bool) -> Result<(), Refusal>
    ensures { result ≡ form_of ok }
{
    if ok { Ok(()) } else { Err(Refusal::Malformed) }
}

#[cfg(test)]
mod tests {
    use super::*;
    use std::fmt::Write;
    use std::test::Fail;

    // Takes one text, and says whether it was the one expected.
    #[derive(Drop)]
    struct Heard<'a> {
        expected: &'a str,
        same: bool,
    }

    impl<'a> Write for Heard<'a> {
        fn write_str(&mut self, s: &str) -> fmt::Result {
            self.same = s == self.expected;
            Ok(())
        }
    }

    // The table of docs/RULES.md, "Refusals", and what each says.
    #[test]
    fn each_refusal(rt: HostRuntime) -> Result<(), Fail> {
        for (number, refusal, code, expected) in [
            (
                1,
                Refusal::Malformed,
                0x01,
                "the state or an argument has not its form",
            ),
            (2, Refusal::InternalError, 0x01, "internal error"),
            (
                3,
                Refusal::ConnectionIdLimitError,
                0x09,
                "more connection IDs than the limit",
            ),
            (4, Refusal::ProtocolViolation, 0x0a, "protocol violation"),
            (5, Refusal::Done, 0x00, "nothing left to do"),
            (6, Refusal::NoSlot, 0x01, "no slot is free"),
            (7, Refusal::Spent, 0x01, "the sequences are spent"),
            (8, Refusal::FarDeadline, 0x01, "the deadline is too far"),
        ] {
            assert_eq!(rt; u64::from(u8::from(refusal)), number, "{refusal}");
            assert_eq!(rt; crate::wire_code(number), code, "{refusal}");
            let mut heard = Heard {
                expected,
                same: false,
            };
            write!(heard, "{refusal}")?;
            assert!(rt; heard.same, "{refusal}");
        }
        Ok(())
    }

    #[test]
    fn no_refusal(rt: HostRuntime) {
        for number in [0, 9, 256, u64::MAX] {
            assert_eq!(rt; crate::wire_code(number), 0x01);
        }
    }
}
