// The program that measures what the product spends its time on, case by case.
// It promises its user that with no words each case's answer is compared with one from elsewhere, and that with the word of
// a case and a count the time of that many repetitions is reported. It proves nothing of its own; specs/ has what the states
// that are measured must have, so that the calls may be made.
#![tactic(auto)]

mod case;
mod locks;
mod messages;
mod parts;
mod states;
mod status;

use case::Case;
use status::Status;
use std::process::ExitCode;
use std::sync::Wait;
use std::time::Instant;
use std::{env, io};

const HELP: &str = "\
registrar_bench: measures the registrar's hot paths

registrar_bench
    compares one answer of each case with a known one
registrar_bench CASE COUNT
    repeats the case, and prints it, the count and the nanoseconds
registrar_bench --help
registrar_bench --version

block     encrypts a block
seal      seals 24 bytes with 19 bytes of additional data
unseal    opens what `seal` makes
key       expands a key, and encrypts a block under it
derive    derives a key of 16 bytes from a secret
draw      draws a sender sequence number
turn      takes the lock by turns, and gives it back
mutex     does the same with a mutex of the library
open_request
          opens a request of 23 bytes that was found
protect_answer
          protects an answer of 28 bytes
lease     forgets a grant, refuses an ask, looks up a lease and renews it, all 65,533 addresses being held
lease_ask, lease_holds, lease_live
          asks in vain for an address of a full pool, and looks up a lease, of 65,533
lease_grant
          forgets a grant and renews another, of 103,600 kept
lease_release
          releases one pledge of 65,533, and grants its address anew
window    judges a number by the replay window, and takes it
due       says what a fresh join is due, of 16,384 pledges with a live lease
due_again says the same of a repeat of the last request
apply     says what a fresh join is due, and adds that Grant
job_for   looks up the update that a pledge is owed, where the second half of the 16,384 waits for keys
waiting   finds the first pledge that waits for keys there
";

const VERSION: &str = "registrar_bench 0.1.0\n";

/// The words after the program's name.
fn words_of(rt: &HostRuntime) -> io::Result<Vec<String>> {
    let mut words = Vec::new(rt.alloc());
    for word in env::args(rt)?.skip(1) {
        words.push(word)?;
    }
    Ok(words)
}

fn tell(rt: &HostRuntime, text: &str) -> Status {
    match print!(rt; "{text}") {
        Ok(()) => Status::Done,
        Err(_) => Status::WriteFault,
    }
}

/// Compares an answer of each case, and prints a line for it.
fn check<W: Wait>(rt: &HostRuntime, wait: &W) -> Status {
    let mut status = Status::Done;
    for case in &Case::ALL {
        let word = case.word();
        let line = if case.is_right(wait, rt.alloc()) {
            println!(rt; "{word} right")
        } else {
            status = Status::Wrong;
            println!(rt; "{word} wrong")
        };
        if line.is_err() {
            return Status::WriteFault;
        }
    }
    status
}

/// Repeats a case, and prints the time that it took.
fn measure<W: Wait>(rt: &HostRuntime, wait: &W, case: Case, count: u64) -> Status {
    let Ok(start) = Instant::now(rt) else {
        return Status::ClockFault;
    };
    let answered = case.repeat(wait, rt.alloc(), count);
    let Ok(time) = start.elapsed(rt) else {
        return Status::ClockFault;
    };
    if !answered && count > 0 {
        return Status::Wrong;
    }
    let word = case.word();
    match println!(rt; "{word} {count} {}", time.as_nanos()) {
        Ok(()) => Status::Done,
        Err(_) => Status::WriteFault,
    }
}

/// A number of one to twenty decimal digits.
fn number_of(word: &str) -> Option<u64> {
    let digits = word.as_bytes();
    if digits.len() > 20 || !digits.iter().all(|digit| digit.is_ascii_digit()) {
        return None;
    }
    word.parse().ok()
}

fn status_of<W: Wait>(rt: &HostRuntime, wait: &W, words: &[String]) -> Status {
    match words {
        [] => check(rt, wait),
        [word] if word.as_str() == "--help" => tell(rt, HELP),
        [word] if word.as_str() == "--version" => tell(rt, VERSION),
        [word, count] => match (Case::of(word.as_str()), number_of(count.as_str())) {
            (Some(case), Some(count)) => measure(rt, wait, case, count),
            _ => Status::Usage,
        },
        _ => Status::Usage,
    }
}

fn main(rt: HostRuntime) -> ExitCode {
    let status = match words_of(&rt) {
        Ok(words) => status_of(&rt, &rt, &words),
        Err(error) if error.kind() == io::ErrorKind::OutOfMemory => Status::NoMemory,
        Err(_) => Status::Usage,
    };
    if status != Status::Done {
        let _ = eprintln!(rt; "{}", status.text());
    }
    ExitCode::from(status.number())
}
