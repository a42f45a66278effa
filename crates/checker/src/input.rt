// Standard input, read to its end or until it is longer than any sheet.
ghost use Rattle.std.specs.Prelude.{◌≤◌, ◌≡◌, length, take};
ghost use Rattle.checker.specs.Input as def;

use crate::calls::{Answer, answered};
use pause::pause;
use std::io::{Error, Read, Stdin};
use std::time::Clock;

// How far the input is read.
#[derive(Clone, Copy)]
pub enum Input {
    Partial(usize),
    Whole(usize),
    Unread,
}

// The input after an answer, where `done` bytes of a buffer of this size were read before it.
fn after(size: usize, done: usize, answer: Answer) -> Input
    requires { def.Room size done answer }
    ensures { result ≡ def.after size done answer }
{
    match answer {
        Answer::Moved(n) => reached(size, done + n),
        Answer::Ended => Input::Whole(done),
        Answer::Again => Input::Partial(done),
        Answer::Wait => Input::Partial(done),
        Answer::Failed => Input::Unread,
    }
}

fn reached(size: usize, n: usize) -> Input
    ensures { result ≡ def.reached size n }
{
    if n == size {
        Input::Whole(n)
    } else {
        Input::Partial(n)
    }
}

// One call of read for what is free of the buffer. The bytes read before stay. What failed last stays in `failure`.
fn read_once(
    stdin: &mut Stdin,
    clock: &impl Clock,
    buffer: &mut [u8],
    done: usize,
    failure: &mut Option<Error>,
) -> Input
    requires { done ≤ length buffer.old }
    ensures held { def.Held done (length buffer.old) result }
    ensures buffer_unchanged { take done buffer.new ≡ take done buffer.old }
{
    let size = buffer.len();
    let outcome = stdin.read(&mut buffer[done..]);
    let answer = answered(&outcome);
    *failure = outcome.err();
    if let Answer::Wait = answer {
        pause(clock);
    }
    after(size, done, answer)
}

// Reads until nothing is left, the buffer is full or a call fails, which `failure` then tells.
pub fn read_input(
    stdin: &mut Stdin,
    clock: &impl Clock,
    buffer: &mut [u8],
    failure: &mut Option<Error>,
) -> Input
    ensures { def.Held 0 (length buffer.new) result }
{
    let mut done = 0;
    // A proved loop has to end, and nothing says that an input does: a number of turns that none uses up.
    for _ in 0..u64::MAX {
        let input = read_once(stdin, clock, buffer, done, failure);
        let Input::Partial(n) = input else {
            return input;
        };
        done = n;
    }
    Input::Unread
}
