// What the calls that read and write answer: C's, and those of std that stand for them.
ghost use Rattle.std.specs.Prelude.{◌≡◌, pos};
ghost use Rattle.checker.specs.Calls as def;

use std::io;

// POSIX's numbers of two errors, on Linux.
const EINTR: i32 = 4;

const EAGAIN: i32 = 11;

// What an answer asks for.
#[derive(Clone, Copy)]
pub enum Answer {
    Moved(usize),
    Ended,
    Again,
    Wait,
    Failed,
}

// What the number that a call gave means, with errno after it.
pub fn meant(got: isize, error: i32) -> Answer
    ensures { result ≡ def.meant got error }
{
    if got > 0 {
        Answer::Moved(got as usize)
    } else if got == 0 {
        Answer::Ended
    } else {
        failed(error)
    }
}

fn failed(error: i32) -> Answer
    ensures { result ≡ def.failed error }
{
    if error == EINTR {
        Answer::Again
    } else if error == EAGAIN {
        Answer::Wait
    } else {
        Answer::Failed
    }
}

// The errno of a failure, 0 where the system gave none.
fn errno_of(failure: &io::Error) -> i32
    ensures { result ≡ def.errno failure.now }
{
    failure.raw_os_error().unwrap_or(0)
}

// A call that moved so many bytes.
fn counted(n: usize) -> Answer
    ensures { result ≡ def.meant (pos n) (pos 0) }
{
    if n == 0 {
        Answer::Ended
    } else {
        Answer::Moved(n)
    }
}

// What a call of std answered, which gives C's number and errno as a result.
pub fn answered(outcome: &io::Result<usize>) -> Answer
    ensures { result ≡ def.answered outcome.now }
{
    match outcome {
        Ok(n) => counted(*n),
        Err(failure) => meant(-1, errno_of(failure)),
    }
}
