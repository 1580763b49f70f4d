// What a response asks of the challenges sent: which of them have its data, and what is left.
ghost use Rattle.std.specs.Prelude.{◌≡◌, [], ◌∷◌, ◌++◌, ◌<◌, ◌≤◌};
ghost use Rattle.values.specs.Limits.{max_path_chals_sent};
ghost use Rattle.challenges.specs.Challenges.{SentWell, last_size, matching, sent_of, spans, spans_of, standing, unmatched};

use crate::sent;
use crate::sent::Sent;
use values::limits::MAX_PATH_CHALS_SENT;
use values::{Moment, Span};

#[repr(C)]
#[derive(Clone, Copy)]
pub struct Spans {
    pub items: [Span; 16],
    pub count: usize,
}

// What a response finds: the spans of its matches, and the size of the last one.
#[derive(Clone, Copy)]
pub struct Matches {
    pub spans: Spans,
    pub size: u64,
}

pub fn no_spans() -> Spans
    ensures { result ≡ spans_of [] }
{
    Spans {
        items: [Span { us: 0 }; MAX_PATH_CHALS_SENT],
        count: 0,
    }
}

// Those with other data, in order.
pub fn sent_unmatched(s: Sent, data: u64) -> Sent
    requires { SentWell s }
    ensures { result ≡ sent_of (unmatched «data» (standing s)) }
{
    let mut out = sent::no_sent();
    for x in s.standing() {
        if x.data != data {
            out = sent::sent_push(out, *x);
        }
    }
    out
}

// The span from sending to now of each one with the data, in order, and the size of the last one with it: 0 where none has it.
pub fn sent_matches(s: Sent, data: u64, now: Moment) -> Matches
    requires { SentWell s }
    ensures { result ≡ record { spans = spans_of (spans «data» now.us (standing s)); size = last_size 0 (matching «data» (standing s)) } }
{
    let mut spans = no_spans();
    let mut size = 0;
    for x in s.standing() {
        if x.data == data {
            spans.items[spans.count] = values::moment_minus(now, x.sent);
            spans.count += 1;
            size = x.size;
        }
    }
    Matches { spans, size }
}
