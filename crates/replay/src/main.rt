// Answers a trace: fixed-width call records from standard input, a line for each on standard output (docs/TRACES.md). The oracle answers the same
// records by the Rust, and the two outputs are compared byte for byte.
#![tactic(auto)]

ghost use Rattle.std.specs.Prelude.{◌≡◌, ◌≤◌, length};

mod answers;
mod digest;
mod ids_calls;
mod ids_digest;
mod ids_reads;
mod ids_text;
mod paths_calls;
mod paths_digest;
mod paths_reads;
mod record;
mod text;
mod timers_calls;
mod values_calls;

use ids_state::Ids;
use paths_state::Paths;
use record::Record;
use std::io;
use std::io::Read;
use text::Page;
use timers::TimerTable;
use values::{ConnectionId, Token};

// The states that the calls work on.
#[derive(Clone, Copy)]
struct States {
    timers: TimerTable,
    ids: Ids,
    paths: Paths,
    // how many records were answered
    count: u64,
    // the trace has ended
    over: bool,
}

// All-zero IDs: what a refused fresh gives.
fn no_ids() -> Ids {
    let cid = ConnectionId {
        bytes: [0; 20],
        len: 0,
    };
    let token = Token {
        bytes: [0; 16],
        present: false,
    };
    ids::fresh(0, cid, 0, token).ids
}

impl States {
    fn new() -> States {
        States {
            timers: timers::fresh(),
            ids: no_ids(),
            paths: paths_state::no_paths(),
            count: 0,
            over: false,
        }
    }

    fn answer(&mut self, r: &Record, page: &mut Page<'_>) {
        match r.call {
            0x08..=0x0a => values_calls::line(r, page),
            0x10..=0x16 => timers_calls::line(&mut self.timers, r, page),
            0x20..=0x39 | 0xe0..=0xe2 => ids_calls::line(&mut self.ids, r, page),
            0x40..=0x5d | 0xe8..=0xeb => paths_calls::line(&mut self.paths, r, page),
            _ => {
                page.pair(r.call);
                page.text(" unknown call\n");
            }
        }
        self.count = self.count.wrapping_add(1);
    }

    fn stop(&mut self, page: &mut Page<'_>, what: &str, how: &str) {
        page.note(what, self.count, how);
        self.over = true;
    }

    // One record, unless the trace is over.
    fn step(&mut self, rec: &[u8; record::SIZE], page: &mut Page<'_>) {
        if self.over {
            return;
        }
        match record::read(rec) {
            Some(r) => self.answer(&r, page),
            None => self.stop(page, "record", " malformed"),
        }
    }

    // The whole records among the bytes, 64 at most. Each line is shorter than 512 bytes, so that 32 kB hold the lines of a buffer.
    fn records(&mut self, bytes: &[u8], page: &mut Page<'_>) {
        for rec in bytes.as_chunks().0 {
            self.step(rec, page);
        }
    }

    fn finish(&mut self, rest: usize, page: &mut Page<'_>) {
        if self.over {
            return;
        }
        if rest == 0 {
            self.stop(page, "end", "");
        } else {
            self.stop(page, "record", " truncated");
        }
    }
}

// 64 records.
const INPUT: usize = 64 * record::SIZE;

// The contract gives only the length, so that the proof of `main` carries no list of zeros.
fn input() -> [u8; INPUT]
    ensures { 6144 ≡ length result }
{
    [0; INPUT]
}

// Room for the lines of 64 records.
fn lines() -> [u8; 32768]
    ensures { 32768 ≡ length result }
{
    [0; 32768]
}

// Reads until the buffer is full, the input ends or a read fails, and counts in `done` the bytes that came: those before a read that fails too.
fn read_full(input: &mut impl Read, buf: &mut [u8], done: &mut usize) -> io::Result<()>
    requires { done.old ≤ length buf.old }
    ensures { done.new ≤ length buf.new }
{
    while *done < buf.len() {
        let n = input.read(&mut buf[*done..])?;
        if n == 0 {
            break;
        }
        *done += n;
    }
    Ok(())
}

fn main(rt: HostRuntime) -> io::Result<()> {
    let mut buf = input();
    let mut lines = lines();
    let mut s = States::new();
    let mut source = rt.reader();
    // every function ends: a trace of more than 2^40 buffers is cut off
    for _ in 0..1u64 << 40 {
        let mut n = 0;
        let read = read_full(&mut source, &mut buf, &mut n);
        let mut page = Page::new(&mut lines);
        // what came before a read that failed is answered too
        s.records(&buf[..n], &mut page);
        rt.write_all(page.written())?;
        read?;
        if (n < INPUT) | s.over {
            let mut page = Page::new(&mut lines);
            s.finish(n % record::SIZE, &mut page);
            rt.write_all(page.written())?;
            break;
        }
    }
    Ok(())
}
