// What the server sends: never more than the core allows.
use crate::laptop;
use crate::milliseconds::Milliseconds;
use paths_state::Paths;
use std::io;
use values::Moment;

pub fn credit(rt: &impl Print, t: &mut Paths, id: u64, bytes: u64) -> io::Result<()> {
    *t = paths::inc_anti_ampl_limit(*t, id, bytes).paths;
    let most = paths::cmp_anti_ampl_limit(*t, id, 1_000_000).number;
    println!(rt; "              {bytes} bytes came from there: at most {most} may go back")
}

// A challenge in a full datagram.
pub fn challenge(rt: &impl Print, t: &mut Paths, id: u64, at: u64) -> io::Result<()> {
    *t = paths::initiate_path_chal(*t, id).paths;
    *t = paths::on_path_chal_sent(*t, id, laptop::CHALLENGE, 1200, Moment { us: at }).paths;
    *t = paths::dec_anti_ampl_limit(*t, id, 1200).paths;
    let now = Milliseconds(at);
    let due = Milliseconds(paths::min_path_chal_timer(*t).deadline.at.us);
    println!(rt; "   {now}  PATH_CHALLENGE in 1200 bytes; it counts as lost at {due}")
}

// As much of the wish as is allowed.
pub fn send(rt: &impl Print, t: &mut Paths, id: u64, wish: u64) -> io::Result<()> {
    let most = paths::cmp_anti_ampl_limit(*t, id, wish).number;
    *t = paths::dec_anti_ampl_limit(*t, id, most).paths;
    println!(rt; "              the push has {wish} bytes for path {id}: {most} go out")
}
