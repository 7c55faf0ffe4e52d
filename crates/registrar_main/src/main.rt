// The program: standard streams, the words of the command line and the journal's files, handed to the top call.
// It promises its user the exit status and the text on standard error that the top call's status has. It proves nothing
// of its own; the theorems are clauses of `registrar_tool::run`, and it has no definitions.
#![tactic(auto)]

mod absent;

use absent::NoInventory;
use edge_real::{FileDisk, OpenError, StdSink, StdSource};
use registrar_tool::{Status, is_command, run};
use std::process::ExitCode;
use std::{env, io};

const HELP: &str = "\
registrar: the join registrar of a 6TiSCH mesh

registrar init
    makes an empty journal of the files journal.0 and journal.1
registrar decide FIRST COUNT HOURS
    decides the lines `ask TIME ID NUMBER` on standard input, each durable in the journal before its outcome is
    written: FIRST and COUNT are the pool of short addresses, HOURS is the lease time
registrar --help
registrar --version
";

/// The journal is `journal.0` and `journal.1` in the folder where the program runs.
const JOURNAL: &str = "journal";

const VERSION: &str = "registrar 0.1.0\n";

/// The words after the program's name.
fn words_of(rt: &HostRuntime) -> io::Result<Vec<String>> {
    let mut words = Vec::new(rt.alloc());
    for word in env::args(rt)?.skip(1) {
        words.push(word)?;
    }
    Ok(words)
}

/// Prints a text of the program about itself.
fn tell(rt: &HostRuntime, text: &str) -> Status {
    match print!(rt; "{text}") {
        Ok(()) => Status::Done,
        Err(_) => Status::WriteFault(1),
    }
}

/// Runs the words over the standard streams and the journal's two files, which are opened for a command alone.
fn run_words(rt: &HostRuntime, words: &[String]) -> Status {
    if !is_command(words) {
        return Status::Usage;
    }
    let disk = match FileDisk::at(*rt, JOURNAL) {
        Ok(disk) => disk,
        Err(OpenError::Failed) => return Status::DiskFault(1),
        Err(OpenError::Taken) => {
            let _ = eprintln!(rt; "another program has the journal open");
            return Status::DiskFault(1);
        }
        Err(OpenError::NoMemory) => return Status::NoMemory,
    };
    let (_disk, status) = run(
        rt.alloc(),
        words,
        &mut NoInventory,
        &mut StdSource::new(rt),
        &mut StdSink::new(*rt),
        disk,
    );
    status
}

fn status_of(rt: &HostRuntime, words: &[String]) -> Status {
    match words {
        [word] if word.as_str() == "--help" => tell(rt, HELP),
        [word] if word.as_str() == "--version" => tell(rt, VERSION),
        _ => run_words(rt, words),
    }
}

fn main(rt: HostRuntime) -> ExitCode {
    let status = match words_of(&rt) {
        Ok(words) => status_of(&rt, &words),
        Err(error) if error.kind() == io::ErrorKind::OutOfMemory => Status::NoMemory,
        Err(_) => Status::Usage,
    };
    if status != Status::Done {
        let _ = eprintln!(rt; "{status}");
    }
    ExitCode::from(status.number())
}
