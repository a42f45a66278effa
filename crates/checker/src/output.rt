// Standard output, to which one line is written, and standard error, which says what failed.
use crate::calls::{Answer, answered};
use pause::pause;
use std::fmt::{InlineText, Write as _};
use std::io::{Error, Stderr, Stdout, Write};
use std::time::Clock;

// The reason of a failure, without the number that std puts behind it.
fn reason(text: &str) -> &str {
    match text.find(" (os error ") {
        Some(end) => &text[..end],
        None => text,
    }
}

// What standard error does not take is not said: there is nowhere left to say it.
pub fn say(stderr: &mut Stderr, words: &[u8]) {
    let _ = stderr.write_all(words);
}

// Says what failed, and why.
pub fn tell(stderr: &mut Stderr, what: &[u8], failure: &Error) {
    let mut text = InlineText::<512>::new();
    let _ = write!(text, "{failure}");
    say(stderr, what);
    say(stderr, b": ");
    say(stderr, reason(text.as_str()).as_bytes());
    say(stderr, b"\n");
}

fn cut_short(stderr: &mut Stderr) {
    say(
        stderr,
        b"wennathig-check: standard output: only a part of the line was written\n",
    );
}

// One call of write. Says whether it has to be made again, since nothing was written yet.
fn write_once(stdout: &mut Stdout, stderr: &mut Stderr, clock: &impl Clock, line: &[u8]) -> bool {
    let outcome = stdout.write(line);
    match answered(&outcome) {
        Answer::Moved(n) => {
            if n < line.len() {
                cut_short(stderr);
            }
            false
        }
        Answer::Ended => {
            cut_short(stderr);
            false
        }
        Answer::Again => true,
        Answer::Wait => {
            pause(clock);
            true
        }
        Answer::Failed => {
            if let Err(failure) = outcome {
                tell(stderr, b"wennathig-check: standard output", &failure);
            }
            false
        }
    }
}

// Writes the line by one call, so that lines of two programs that append to one file do not mix.
pub fn write_line(stdout: &mut Stdout, stderr: &mut Stderr, clock: &impl Clock, line: &[u8]) {
    for _ in 0..u64::MAX {
        if !write_once(stdout, stderr, clock, line) {
            return;
        }
    }
}
