// Reads a sheet on standard input and writes a word, a number and a place. What is no input read to its end gets no verdict.
#![tactic(auto)]

mod calls;
mod input;
mod output;

ghost use Rattle.std.specs.Prelude.{◌≡◌, length, take};
ghost use Rattle.io.specs.Counts.{IsPrefixLen};
ghost use Rattle.checker.specs.Input.{Held};
ghost use Rattle.checker.specs.Said.{said};

use input::{Input, read_input};
use output::{say, tell, write_line};
use std::env::{Env, FillError};
use verdict_line::{LINE_BYTES, put_line};

// The line of the verdict on the bytes read, where they are the whole input; otherwise nothing.
fn put_said(buffer: &[u8], input: Input, line: &mut [u8; LINE_BYTES]) -> usize
    requires { Held 0 (length buffer.now) input }
    ensures prefix_len { IsPrefixLen result line.new }
    ensures line_after { take result line.new ≡ said buffer.now input }
{
    match input {
        Input::Whole(n) => put_line(checking::check(&buffer[..n]), line),
        Input::Partial(_) => 0,
        Input::Unread => 0,
    }
}

// A byte more than the longest sheet has: what fills it is refused whatever follows.
fn answer(rt: &HostRuntime) {
    let mut buffer = [0u8; 32769];
    let mut failure = None;
    let input = read_input(&mut rt.stdin(), rt, &mut buffer, &mut failure);
    let mut line = [0u8; LINE_BYTES];
    let n = put_said(&buffer, input, &mut line);
    let mut stderr = rt.stderr();
    if n > 0 {
        write_line(&mut rt.stdout(), &mut stderr, rt, &line[..n]);
    } else {
        match failure {
            Some(why) => tell(&mut stderr, b"wennathig-check: standard input", &why),
            None => say(&mut stderr, b"wennathig-check: standard input\n"),
        }
    }
}

// Of an argument only whether there is one counts, so that it may be any bytes.
fn is_given_one(rt: &HostRuntime) -> bool {
    match rt.arg(1, &mut []) {
        Err(FillError::NotPresent) => false,
        Err(FillError::TooLong) => true,
        Ok(_) => true,
    }
}

fn main(rt: HostRuntime) {
    if is_given_one(&rt) {
        say(&mut rt.stderr(), b"usage: wennathig-check <SHEET\n");
    } else {
        answer(&rt);
    }
}
