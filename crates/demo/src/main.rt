// A story to read: a push of character properties to a font editor, on a laptop that moves from cable to wireless in mid-push. Every number comes from
// the published calls; nothing here decides anything.
#![tactic(auto)]

mod laptop;
mod milliseconds;
mod push;

use ids_state::Ids;
use milliseconds::Milliseconds;
use paths_state::Paths;
use std::io;
use values::Moment;

// The laptop's first packet on wireless, and what the server may send before it knows who is there.
fn lifted(rt: &impl Print, t: &mut Paths) -> io::Result<()> {
    println!(rt;
        "\nThe laptop is lifted from its dock. A packet of 1200 bytes comes from an address never seen.\n"
    )?;
    let o = paths::insert_path(*t, laptop::wireless(), 1200);
    *t = o.paths;
    println!(rt;
        "   30.000 ms  a new path, number {}, with nothing allowed yet",
        o.answer.number
    )?;
    push::credit(rt, t, 1, 1200)?;
    push::challenge(rt, t, 1, 30500)?;
    push::send(rt, t, 1, 5000)
}

// A response that nobody asked for: somebody who did not hear the challenge guesses at its data.
fn guessed(rt: &impl Print, t: &mut Paths) -> io::Result<()> {
    println!(rt; "\nSomebody who did not hear the challenge answers it, from the same address.\n")?;
    let o = paths::on_path_resp_received(*t, 1, laptop::GUESS, Moment { us: 40000 });
    *t = o.paths;
    println!(rt;
        "   40.000 ms  the response matches {} challenges: nothing happens",
        o.answer.spans.count
    )?;
    push::send(rt, t, 1, 5000)
}

// The challenge is answered, and the whole push may go on.
fn answered(rt: &impl Print, t: &mut Paths) -> io::Result<()> {
    println!(rt;
        "\nNothing more may go there until the laptop has shown that it can hear. It answers itself.\n"
    )?;
    let o = paths::on_path_resp_received(*t, 1, laptop::CHALLENGE, Moment { us: 48500 });
    *t = o.paths;
    let after = Milliseconds(o.answer.spans.items[0].us);
    let validated = if o.answer.yes {
        "validated"
    } else {
        "not validated yet"
    };
    println!(rt; "   48.500 ms  the response matches after {after}: the path is {validated}")?;
    push::send(rt, t, 1, 5000)
}

// Path 1 takes the lowest ID of the peer that no path uses.
fn takes(rt: &impl Print, t: &mut Paths, s: &Ids) -> io::Result<()> {
    let low = ids::lowest_unused_dcid_seq(*s).number;
    println!(rt; "              path 1 takes the peer's ID number {low}")?;
    *t = paths::set_dcid_seq(*t, 1, true, low).paths;
    Ok(())
}

// The push moves over: the new path takes an ID of its own, and is the active one.
fn migrated(rt: &impl Print, t: &mut Paths, s: &Ids) -> io::Result<()> {
    println!(rt; "\nThe push moves to wireless.\n")?;
    takes(rt, t, s)?;
    *t = paths::set_active(*t, 1, true).paths;
    *t = paths::set_active(*t, 0, false).paths;
    println!(rt;
        "              the active path is number {}",
        paths::get_active(*t).id
    )
}

// The peer brings the ID n with that sequence, and retires those below.
fn renewed(rt: &impl Print, s: &mut Ids, n: u8, seq: u64, below: u64) -> io::Result<()> {
    let o = ids::add_dcid(*s, laptop::id(n), seq, laptop::reset(), below);
    *s = o.ids;
    let pair = o.answer.used.pairs[0];
    println!(rt;
        "              the peer brings ID number {seq} and retires number {}, which path {} used",
        pair.seq, pair.path,
    )
}

// What is queued to be retired goes out.
fn retired(rt: &impl Print, s: &mut Ids) -> io::Result<()> {
    let next = ids::next_dcid_to_retire(*s).number;
    println!(rt; "              RETIRE_CONNECTION_ID goes out for number {next}")?;
    *s = ids::mark_dcid_to_retire(*s, next, false).ids;
    Ok(())
}

// A copy of the frame that brought number 1, which now waits to be retired: it stays out.
fn held_up(rt: &impl Print, s: &mut Ids) -> io::Result<()> {
    *s = ids::add_dcid(*s, laptop::id(2), 1, laptop::reset(), 0).ids;
    let next = ids::next_dcid_to_retire(*s).number;
    let count = ids::dcid_count(*s).number;
    println!(rt;
        "              the old frame comes: number {next} waits to be retired and stays out, {count} IDs are held as before",
    )
}

// The whole story.
fn told(rt: &impl Print) -> io::Result<()> {
    println!(rt; "A push of character properties begins, over cable.\n")?;
    let first = paths::fresh(laptop::cable(), 1200, 4, 3, true);
    let mut t = paths::mark_verified(first.paths, 0).paths;
    let mut s = laptop::ids();
    push::send(rt, &mut t, 0, 9600)?;
    lifted(rt, &mut t)?;
    guessed(rt, &mut t)?;
    answered(rt, &mut t)?;
    migrated(rt, &mut t, &s)?;
    s = ids::mark_dcid_used(s, 1, 1).ids;
    renewed(rt, &mut s, 3, 2, 1)?;
    retired(rt, &mut s)?;
    println!(rt; "\nThe last properties go out on wireless.\n")?;
    push::send(rt, &mut t, 1, 4600)?;
    println!(rt;
        "\nThe peer renews its IDs. A copy of the frame that brought number 1 was held up on cable, and comes after all.\n"
    )?;
    renewed(rt, &mut s, 4, 3, 2)?;
    takes(rt, &mut t, &s)?;
    s = ids::mark_dcid_used(s, 2, 1).ids;
    held_up(rt, &mut s)?;
    retired(rt, &mut s)?;
    let refusal = paths::set_active(t, 7, true).answer.refusal;
    let code = values::wire_code(u64::from(refusal));
    println!(rt;
        "\nA mistake of the host changes nothing: path 7 isn't there, refused with {refusal}, wire code {code}."
    )?;
    let left = ids::dcid_count(s).number;
    println!(rt; "The push is complete, and the connection holds {left} IDs of its peer.")
}

fn main(rt: HostRuntime) -> io::Result<()> {
    told(&rt)
}
