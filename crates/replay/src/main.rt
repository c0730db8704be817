// The replay program: reads standard input to its end and writes what `crafty::replay_output` gives for it.

#![tactic(auto)]

mod input;

use input::ROOM;
use std::io;
use transcript::TRANSCRIPT_MOST;

fn complain(rt: &impl Eprint) -> io::Result<()> {
    eprintln!(rt; "replay: the input could not be read; nothing was judged")
}

// The room is always enough (`printed_whole`).
fn print(rt: &impl Print, input: &[u8]) -> io::Result<()> {
    let mut out = [0u8; TRANSCRIPT_MOST];
    let Ok(k) = crafty::replay_output(input, &mut out) else {
        return Ok(());
    };
    rt.write_all(&out[..k])
}

// Only a whole input is judged, so an empty standard output says that nothing was.
fn main(rt: HostRuntime) -> io::Result<()> {
    let mut input = [0u8; ROOM];
    let Ok(length) = input::read(&mut rt.reader(), &mut input) else {
        return complain(&rt);
    };
    print(&rt, &input[..length])
}
