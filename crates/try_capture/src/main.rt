// Lays captures beside sheets, page 02 'Ask 1'. A line of standard input is a case: a label, a colon, the sheet, a bar and the capture,
// both in hexadecimal digits; and where it is not 7 of each, a semicolon, the places of the four lent runs and the bytes of a
// piece. A line without a bar is a title. The last captures are logs of runs of the bus at its slowest, which reach the bound; then
// such runs are simulated, to lay their instants beside the logs.
#![tactic(auto)]

ghost use Rattle.std.specs.Prelude.{◌≤◌, length};

mod cases;
mod lines;
mod pieces;
mod simulated;
mod words;

use lines::try_lines;
use simulated::runs;
use std::io::Read;

// Reads standard input until it ends, a read fails or the buffer is full; how many bytes that are.
fn read_full(rt: &HostRuntime, buf: &mut [u8]) -> usize
    ensures { result ≤ length buf.new }
{
    let mut done: usize = 0;
    while done < buf.len() {
        let n = rt.stdin().read(&mut buf[done..]).unwrap_or(0);
        if n == 0 {
            return done;
        }
        done += n;
    }
    done
}

fn main(rt: HostRuntime) {
    let mut buf = [0u8; 65536];
    let n = read_full(&rt, &mut buf);
    try_lines(&rt, &buf[..n]);
    runs(&rt);
}
