//! The program: the words of its command line, standard input, standard output, standard error for
//! the notes, and files for the shelf.
//!
//! Uses `kex_ports`, `kex_top` and `kex_words`. The adapters meet the clauses of the ports;
//! their counts rise at each fault.
#![tactic(auto)]

mod files;
mod input;
mod output;
mod ready;

use files::FileShelf;
use input::Input;
use kex_ports::OpenGate;
use kex_top::{Status, kex};
use kex_words::{Note, tell};
use output::Output;
use std::alloc::Global;
use std::env;
use std::io::ErrorKind;
use std::process::ExitCode;
use std::rt::Env;

// The words, of which the first is the program's own name; or the status and the note of why there
// are none.
fn words<R: Env + AllocGlobal>(rt: &R) -> Result<Vec<String>, (Status, Note)> {
    let args = match env::args(rt) {
        Ok(args) => args,
        Err(error) if error.kind() == ErrorKind::OutOfMemory => return Err((
            Status::Memory,
            Note::Memory,
        )),
        Err(_) => return Err((Status::Usage, Note::Usage)),
    };
    match args.collect(rt.alloc()) {
        Ok(words) => Ok(words),
        Err(_) => Err((Status::Memory, Note::Memory)),
    }
}

fn main(rt: HostRuntime) -> ExitCode {
    let alloc = rt.alloc();
    let mut notes = Output::new(rt.stderr(), &rt);
    let words = match words(&rt) {
        Ok(words) => words,
        Err((status, note)) => {
            tell(note, &mut notes);
            return ExitCode::from(status.number());
        }
    };
    let mut shelf = FileShelf::new(&rt);
    let mut input = Input::new(rt.stdin(), &rt);
    let mut output = Output::new(rt.stdout(), &rt);
    let status = kex(
        &rt,
        alloc,
        &words,
        &mut shelf,
        &mut input,
        &mut output,
        &mut notes,
        &OpenGate,
    );
    ExitCode::from(status.number())
}
