//! What policies choose, and what runs under locks answer, on one thread or by threads, asked by
//! texts.
//!
//! ```text
//! post_tests row SOURCE
//! post_tests strangers SOURCE
//! post_tests alone SOURCE
//! post_tests again SOURCE
//! post_tests memory SOURCE
//! post_tests others SOURCE
//! post_tests prompt
//! post_tests hoard COUNT
//! post_tests script NAME ..
//! post_tests faulty CHOICE ..
//! post_tests bounded DELTA GST DELAY ..
//! post_tests run VALUES INPUTS ROUNDS RECEIVES CORRECT TICKS POLICY ..
//! post_tests threads VALUES POLICY ..
//! post_tests tail VALUES POLICY ..
//! post_tests events VALUES POLICY ..
//! post_tests overlap
//! post_tests watched POLICY ..
//! ```
//!
//! SOURCE is the file of a program, or `gather:K` for K values. With `row`, standard input is a
//! schedule: its events are recorded by a journal and by a post, and standard output has what each
//! event was answered, whether both answered the same, and the report of the post's journal. A call
//! of the post that is refused for memory must have changed nothing, and is made again.
//!
//! With `strangers`, they are recorded by a post, and then they come to another post of the run
//! with the seats and the relay of the first. Standard output has what both answered, and whether
//! the second one's journal agrees with those seats and that relay.
//!
//! With `alone`, the nodes of a schedule without events run one after another over calls that
//! release each message as soon as it was sent. Standard output has how each node ended, and the
//! report. With `again` each node is run once more from its first step, with the seat of another
//! post, before the report. With `memory` they run over a journal and seats of the test's own, with
//! no post, and standard output has what each seat counts too.
//!
//! With `others`, node 0 of a schedule without events sends to itself and hears it. Its round is
//! closed with the work of another node, and then with its own. Standard output has the answers.
//!
//! A policy is one of the five words `prompt`, `hoard`, `script`, `faulty` and `bounded` with what
//! stands behind it. Where it comes first, each line of standard input is a call of it: the tick,
//! and then the messages in flight, each as its name, `sent_at` and `serial`, `0.1.1.0.5.7`. A line
//! of standard output has the choice: `none`, `release 0`, `drop 0` or `copy 0`. A name is
//! `FROM.TO.ROUND.COPY`, and a choice among the words is `release.0`.
//!
//! With `run`, standard output has the schedule of a run of `gather` in which the policy is asked,
//! or `refused`; INPUTS and CORRECT have commas, and `-` stands for none.
//!
//! With `threads`, standard input is the thread setup of a run of `gather` by threads. Standard
//! output has how each thread ended, the report, and whether the run's trace has the same report
//! as a schedule; or `refused` with the fault's number. With `tail` it has of the report the lines
//! of the nodes alone, and with `events` these and the run's schedule. With `overlap` a gate holds
//! some threads until others have passed, and with `watched` until the network has done two choices
//! of the policy.
#![tactic(auto)]

mod alone;
mod calls;
mod chosen;
mod forwarding;
mod gate;
mod memory;
mod others;
mod reading;
mod recorder;
mod reports;
mod row;
mod running;
mod schedules;
mod sources;
mod threads;
mod watch;

use calls::call_all;
use chosen::Chosen;
use running::schedule;
use sources::program;
use std::alloc::Global;
use std::process::ExitCode;
use std::sync::Wait;
use std::thread::Threads;
use std::{env, io};
use test_kit::{Fault, end};
use threads::{Shown, overlap, threads, watched};

/// Answers a word about the schedule of a program.
fn answer_schedule<R: Wait>(
    rt: &HostRuntime,
    waiter: &R,
    alloc: Global,
    words: &[String],
    input: &str,
) -> Result<String, Fault> {
    let [word, source] = words else {
        return Err(Fault::Unreadable);
    };
    let program = program(rt, alloc, source.as_str())?;
    schedules::answer(waiter, alloc, &program, input, word.as_str())
}

/// What the words ask for: a run, or what a policy chooses at each call.
fn answer_all<R: Threads + Wait + Sync>(
    rt: &HostRuntime,
    starter: &R,
    alloc: Global,
    words: &[String],
    input: &str,
) -> Result<String, Fault> {
    let [kind, rest @ ..] = words else {
        return Err(Fault::Unreadable);
    };
    match kind.as_str() {
        "row" | "strangers" | "alone" | "again" | "memory" | "others" => {
            answer_schedule(rt, starter, alloc, words, input)
        }
        "run" => schedule(alloc, rest),
        "threads" => threads(starter, alloc, Shown::Whole, rest, input),
        "tail" => threads(starter, alloc, Shown::Tail, rest, input),
        "events" => threads(starter, alloc, Shown::Events, rest, input),
        "overlap" => overlap(starter, alloc, input),
        "watched" => watched(starter, alloc, rest, input),
        _ => call_all(alloc, Chosen::read(alloc, words)?, input),
    }
}

/// Does what the words say, and gives what is to be printed.
fn answer<R: Threads + Wait + Sync>(
    rt: &HostRuntime,
    starter: &R,
    alloc: Global,
) -> Result<String, Fault> {
    let words = env::args(rt)?.collect::<Vec<String>>(alloc)?;
    let [_, words @ ..] = words.as_slice() else {
        return Err(Fault::Unreadable);
    };
    let input = io::read_to_string(alloc, rt.reader())?;
    answer_all(rt, starter, alloc, words, input.as_str())
}

fn main(rt: HostRuntime) -> ExitCode {
    end(&rt, answer(&rt, &rt, rt.alloc()))
}
