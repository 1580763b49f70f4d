// The challenges that were sent on a path and stand without a response: 16 places, of which the first `count` hold them in the order of sending.
ghost use Rattle.std.specs.Prelude.{◌≡◌, cond, [], ◌∷◌, ◌++◌, ◌<◌, ◌≤◌, drop};
ghost use Rattle.values.specs.Limits.{max_path_chals_sent};
ghost use Rattle.values.specs.Time.{moved_of};
ghost use Rattle.challenges.specs.Challenges.{SentWell, due, is_zero, sent_of, standing, zero_challenge};

use values::limits::MAX_PATH_CHALS_SENT;
use values::{Gather, Moment};

// The data of the frame, the size of the packet, when it was sent, and when it counts as lost.
#[repr(C)]
#[derive(Clone, Copy)]
pub struct Challenge {
    pub data: u64,
    pub size: u64,
    pub sent: Moment,
    pub deadline: Moment,
}

#[repr(C)]
#[derive(Clone, Copy)]
pub struct Sent {
    pub items: [Challenge; 16],
    pub count: usize,
}

impl Gather for Challenge {
    ghost is_nothing = { is_zero };

    fn nothing() -> Challenge {
        no_challenge()
    }

    fn gather(self, other: Challenge) -> Challenge {
        Challenge {
            data: self.data | other.data,
            size: self.size | other.size,
            sent: self.sent.gather(other.sent),
            deadline: self.deadline.gather(other.deadline),
        }
    }

    fn is_none(self) -> bool {
        (self.data == 0) & (self.size == 0) & self.sent.is_none() & self.deadline.is_none()
    }
}

impl Sent {
    // The challenges that stand.
    pub fn standing(&self) -> &[Challenge]
        requires { self.now.count ≤ max_path_chals_sent }
        ensures { result.now ≡ standing self.now }
    {
        &self.items[..self.count]
    }
}

pub fn no_challenge() -> Challenge
    ensures { result ≡ zero_challenge }
{
    Challenge {
        data: 0,
        size: 0,
        sent: Moment { us: 0 },
        deadline: Moment { us: 0 },
    }
}

pub fn no_sent() -> Sent
    ensures { result ≡ sent_of [] }
{
    Sent {
        items: [no_challenge(); MAX_PATH_CHALS_SENT],
        count: 0,
    }
}

// The challenge goes to the end: there is room.
pub fn sent_push(s: Sent, challenge: Challenge) -> Sent
    requires { SentWell s × (s.count < max_path_chals_sent) }
    ensures { result ≡ sent_of (standing s ++ (challenge ∷ [])) }
{
    let mut u = s;
    u.items[s.count] = challenge;
    u.count = s.count + 1;
    u
}

// The deadline of the first that stands.
pub fn sent_front(s: &Sent) -> Option<Moment>
    requires { s.now.count ≤ max_path_chals_sent }
    ensures { result ≡ moved_of (due (standing s.now)) }
{
    s.standing().first().map(|c| c.deadline)
}

// The first is taken out: the later ones move down, and the last place is cleared.
fn sent_drop_front(s: Sent) -> Sent
    requires { SentWell s }
    ensures { result ≡ sent_of (drop 1 (standing s)) }
{
    let mut u = s;
    if s.count > 0 {
        values::take_out(&mut u.items, s.count, 0, no_challenge());
        u.count -= 1;
    }
    u
}

// What stands after the first is lost: the others, or with `all` none.
pub fn sent_rest(s: Sent, all: bool) -> Sent
    requires { SentWell s }
    ensures { result ≡ sent_of (cond all [] (drop 1 (standing s))) }
{
    if all { no_sent() } else { sent_drop_front(s) }
}
