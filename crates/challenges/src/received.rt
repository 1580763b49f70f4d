// The challenges that the peer sent and that wait for their response: 8 places, of which the first `count` hold data in the order of arrival.
ghost use Rattle.std.specs.Prelude.{◌≡◌, [], ◌∷◌, ◌++◌, ◌<◌, ◌≤◌, drop};
ghost use Rattle.lists.specs.Defs.{front, optional};
ghost use Rattle.values.specs.Limits.{max_path_chals_recv};
ghost use Rattle.challenges.specs.Challenges.{ReceivedWell, received_of, roomed, waiting};

use values::limits::MAX_PATH_CHALS_RECV;

#[repr(C)]
#[derive(Clone, Copy)]
pub struct Received {
    pub items: [u64; 8],
    pub count: usize,
}

impl Received {
    // The challenges that wait.
    pub fn waiting(&self) -> &[u64]
        requires { self.now.count ≤ max_path_chals_recv }
        ensures { result.now ≡ waiting self.now }
    {
        &self.items[..self.count]
    }
}

pub fn no_received() -> Received
    ensures { result ≡ received_of [] }
{
    Received {
        items: [0; MAX_PATH_CHALS_RECV],
        count: 0,
    }
}

// The oldest.
pub fn received_front(q: &Received) -> Option<u64>
    requires { q.now.count ≤ max_path_chals_recv }
    ensures { result ≡ optional (front (waiting q.now)) }
{
    q.waiting().first().copied()
}

// The oldest is taken out: the later ones move down, and the last place is cleared.
pub fn received_pop(q: Received) -> Received
    requires { ReceivedWell q }
    ensures { result ≡ received_of (drop 1 (waiting q)) }
{
    let mut u = q;
    if q.count > 0 {
        values::take_out(&mut u.items, q.count, 0, 0);
        u.count -= 1;
    }
    u
}

// The data goes to the end: there is room.
fn received_append(q: Received, data: u64) -> Received
    requires { ReceivedWell q × (q.count < max_path_chals_recv) }
    ensures { result ≡ received_of (waiting q ++ («data» ∷ [])) }
{
    let mut u = q;
    u.items[q.count] = data;
    u.count = q.count + 1;
    u
}

// The data goes to the end; where 8 wait, the oldest goes.
pub fn received_push(q: Received, data: u64) -> Received
    requires { ReceivedWell q }
    ensures { result ≡ received_of (roomed (waiting q) ++ («data» ∷ [])) }
{
    if q.count < MAX_PATH_CHALS_RECV {
        return received_append(q, data);
    }
    received_append(received_pop(q), data)
}
