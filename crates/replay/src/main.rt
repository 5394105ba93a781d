// Runs a script of calls on the library and writes each answer as text (docs/REPLAY.md). A test driver: what it writes is
// compared with another implementation.
#![tactic(auto)]

mod script;
mod session;
mod shown;
mod states;

use config::Config;
use script::Script;
use session::Session;
use std::io::Stdout;

fn main(rt: HostRuntime) {
    let mut buffer = [0u8; 65537];
    match input::read(rt.stdin(), &mut buffer) {
        Ok(count) => run(rt.stdout(), &buffer[..count]),
        Err(_) => {
            let _ = eprintln!(rt; "replay: the input cannot be read");
        }
    }
}

fn run(out: Stdout, bytes: &[u8]) {
    if play(out, bytes).is_none() {
        let _ = println!(out; "script refused");
    }
}

// One call after the other. None at a script that is too long or not in whole words, and where a call is not listed or cut short.
fn play(out: Stdout, bytes: &[u8]) -> Option<()> {
    let mut buffer = [0u32; 16384];
    let words = loaded(bytes, &mut buffer)?;
    let mut script = Script(words);
    let mut session = Session::fresh(out, Config::institute());
    // A call takes one word at least.
    for _ in 0..words.len() {
        if script.0.is_empty() {
            break;
        }
        session.call(&mut script)?;
    }
    Some(())
}

// The words of the bytes, in the front of the buffer.
fn loaded<'a>(bytes: &[u8], buffer: &'a mut [u32; 16384]) -> Option<&'a [u32]> {
    if bytes.len() % 4 != 0 {
        return None;
    }
    let words = buffer.get_mut(..bytes.len() / 4)?;
    for (i, word) in words.iter_mut().enumerate() {
        *word = words::word_at(bytes, i);
    }
    Some(words)
}
