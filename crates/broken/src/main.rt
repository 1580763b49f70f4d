// A well-formed state, and 27 states that break one conjunct of docs/RULES.md, "Well-formed IDs", alone: those of ids_state's specs/Broken.antt, under the
// same names. Two published calls are made on each, one that changes the state and one that reads it. They refuse every broken state with 1 and leave it.
#![tactic(auto)]

mod names;
mod same;
mod states;

use ids_state::Ids;
use names::NAMES;
use std::io;
use values::refusals::ACCEPTED;

// What a call answers to a state that is not well formed.
fn malformed() -> u8 {
    u8::from(values::Refusal::Malformed)
}

// Both calls are refused with 1, and the state comes back as it was.
fn refuses(rt: &impl Print, s: Ids) -> io::Result<bool> {
    let o = ids::set_scid_limit(s, 8);
    let a = ids::unused_dcids(s);
    if (o.answer.refusal != malformed()) | (a.refusal != malformed()) {
        println!(rt; "NOT refused")?;
        return Ok(false);
    }
    let kept = same::ids(&s, &o.ids);
    let state = if kept { "unchanged" } else { "CHANGED" };
    println!(rt; "refused with 1, state {state}")?;
    Ok(kept)
}

fn accepts(rt: &impl Print, s: Ids) -> io::Result<()> {
    let o = ids::set_scid_limit(s, 8);
    let a = ids::unused_dcids(s);
    if (o.answer.refusal == ACCEPTED) & (a.refusal == ACCEPTED) {
        println!(rt; "accepted")
    } else {
        println!(rt; "NOT accepted")
    }
}

// How many of the broken states are refused: for each, its conjunct, and what the calls say.
fn refused(rt: &impl Print) -> io::Result<u64> {
    let mut refused = 0;
    for (k, name) in NAMES.iter().enumerate() {
        print!(rt; "conjunct {name}: ")?;
        refused += u64::from(refuses(rt, states::broken(k))?);
    }
    Ok(refused)
}

fn told(rt: &impl Print) -> io::Result<()> {
    print!(rt; "the good state: ")?;
    accepts(rt, states::good())?;
    let refused = refused(rt)?;
    println!(rt; "{refused} of {} broken states refused", NAMES.len())
}

fn main(rt: HostRuntime) -> io::Result<()> {
    told(&rt)
}
