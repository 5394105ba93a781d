// Marks the trace on standard input by the institute's own configuration, and writes one line.
#![tactic(auto)]

mod mark;

ghost use Rattle.std.specs.Prelude.{◌≤◌};

use line::Line;
use std::io::{self, Stdout};

// Writes the whole line to standard output.
fn write(stdout: Stdout, line: Line) -> io::Result<()>
    requires { line.len ≤ 40 }
{
    stdout.write_all(&line.bytes[..line.len])
}

fn main(rt: HostRuntime) {
    let mut buffer = [0u8; 65537];
    let Ok(count) = input::read(rt.stdin(), &mut buffer) else {
        let _ = rt.stderr().write_all(b"marker: the input cannot be read\n");
        return;
    };
    if write(rt.stdout(), mark::line_of(&buffer[..count])).is_err() {
        let _ = rt
            .stderr()
            .write_all(b"marker: the line cannot be written\n");
    }
}
