// The program: one request a line on standard input, one answer a line on standard output. All its buffers are arrays, so that there is no memory that it can run
// out of.
#![tactic(auto)]

mod answers;
mod buffers;
mod engines;
mod input;
mod requests;
mod runs;

use answers::Answer;
use input::Input;
use runs::Memories;
use std::io;
use std::io::Print;

// Nothing says that the input ends, so the lines are counted up to a number that no run reaches.
fn main(rt: HostRuntime) -> io::Result<()> {
    let output = rt.stdout();
    let mut input = Input::new(rt.stdin());
    let mut room = [0u8; input::LINE_ROOM];
    let mut memory = Memories::new();
    let mut answer = Answer::new();
    for _ in 0..u64::MAX {
        let Some(line) = input.next_line(&mut room)? else {
            break;
        };
        requests::answer_line(line, &mut memory, &mut answer);
        output.write_all(answer.bytes())?;
    }
    Ok(())
}
