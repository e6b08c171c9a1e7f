//! A call of `kex` over objects in memory, and rows of such calls.
use crate::long::around;
use kex_ports::{MemShelf, MemSink, MemSource, OpenGate};
use kex_top::kex;
use std::alloc::{AllocError, Global};
use std::str::from_utf8;
use std::test::Fail;
use std::thread::Threads;

/// How many bytes a call of the ports reads and writes at most, and the numbers of the calls that
/// fail, from 1; none for 0.
#[derive(Clone, Copy)]
pub(crate) struct Ports {
    pub given: usize,
    pub taken: usize,
    pub take: u64,
    pub read: u64,
    pub write: u64,
    pub note: u64,
}

/// Ports without a fault, which give and take what is asked.
pub(crate) const USUAL: Ports = Ports {
    given: 2_000_000,
    taken: 2_000_000,
    take: 0,
    read: 0,
    write: 0,
    note: 0,
};

/// Words, what lies before the call and what is held afterwards, and the number of its status with
/// the note.
#[derive(Clone, Copy)]
pub(crate) struct Case<'a> {
    pub words: &'a str,
    pub program: &'a [u8],
    pub input: &'a [u8],
    pub held: &'a [u8],
    pub answer: &'a str,
    pub ports: Ports,
}

pub(crate) fn words_of(alloc: Global, line: &str) -> Result<Vec<String>, AllocError> {
    let mut words = Vec::new(alloc);
    for word in line.split(' ') {
        words.push(String::from_str(alloc, word)?)?;
    }
    Ok(words)
}

// Whether the answer is the wanted one, or begins as that one does before two dots.
fn is_answer(answer: &str, wanted: &str) -> bool {
    match wanted.strip_suffix("..") {
        Some(front) => answer.starts_with(front),
        None => answer == wanted,
    }
}

/// Whether a call comes to what is wanted. The program is on the shelf as `p`.
pub(crate) fn holds<R: Threads + Sync>(
    rt: &R,
    alloc: Global,
    case: &Case<'_>,
) -> Result<bool, Fail> {
    let words = words_of(alloc, case.words)?;
    let ports = case.ports;
    let mut shelf = MemShelf::new(alloc, vec![in alloc; ports.take]?);
    shelf.put("p", case.program)?;
    let given = case.input.to_vec(alloc)?;
    let mut input = MemSource::new(given, ports.given.max(1), vec![in alloc; ports.read]?);
    let mut output = MemSink::new(
        alloc,
        2_000_000,
        ports.taken.max(1),
        vec![in alloc; ports.write]?,
    )?;
    let mut notes = MemSink::new(alloc, 512, 512, vec![in alloc; ports.note]?)?;
    let status = kex(
        rt,
        alloc,
        words.as_slice(),
        &mut shelf,
        &mut input,
        &mut output,
        &mut notes,
        &OpenGate,
    );
    let answer = format!(in alloc; "{} {}", status.number(), from_utf8(notes.bytes())?)?;
    Ok(output.bytes() == case.held && is_answer(answer.trim(), case.answer))
}

// The table file of a program.
fn table_of<R: Threads + Sync>(rt: &R, alloc: Global, program: &[u8]) -> Result<Vec<u8>, Fail> {
    let words = words_of(alloc, "kex compile p")?;
    let mut shelf = MemShelf::new(alloc, Vec::new(alloc));
    shelf.put("p", program)?;
    let mut input = MemSource::new(Vec::new(alloc), 1, Vec::new(alloc));
    let mut output = MemSink::new(alloc, 2_000_000, 2_000_000, Vec::new(alloc))?;
    let mut notes = MemSink::new(alloc, 512, 512, Vec::new(alloc))?;
    let status = kex(
        rt,
        alloc,
        words.as_slice(),
        &mut shelf,
        &mut input,
        &mut output,
        &mut notes,
        &OpenGate,
    );
    if status.number() != 0 {
        return Err(Fail::new("the program isn't compiled"));
    }
    let table = output.bytes().to_vec(alloc)?;
    Ok(table)
}

/// The bytes of a row's part: the sign `feed` is a line feed, and `a%b%3%c` is read as `abbbc`.
pub(crate) fn bytes_of(alloc: Global, part: &str, feed: char) -> Result<Vec<u8>, Fail> {
    let text = part.replace(alloc, feed, "\n")?;
    let mut pieces = text.split('%');
    let front = pieces.next().unwrap_or("").as_bytes();
    let middle = pieces.next().unwrap_or("").as_bytes();
    let times = pieces.next().unwrap_or("0").parse::<u32>()?;
    let end = pieces.next().unwrap_or("").as_bytes();
    let bytes = around(alloc, front, middle, times as usize, end)?;
    Ok(bytes)
}

// Ports that differ from the usual ones, as in `read=3 given=1`.
fn ports_of(part: &str) -> Result<Ports, Fail> {
    let mut ports = USUAL;
    for setting in part.split(' ') {
        let (name, digits) = setting.split_once('=').ok_or("no setting")?;
        let number = digits.parse::<u32>()?;
        match name {
            "given" => ports.given = number as usize,
            "taken" => ports.taken = number as usize,
            "take" => ports.take = u64::from(number),
            "read" => ports.read = u64::from(number),
            "write" => ports.write = u64::from(number),
            "note" => ports.note = u64::from(number),
            _ => return Err(Fail::new("no such port")),
        }
    }
    Ok(ports)
}

/// How the rows of a test are read.
#[derive(Clone, Copy)]
pub(crate) struct CallRows<'a> {
    pub text: &'a str,
    /// The sign of a line feed.
    pub feed: char,
    /// Whether the program is compiled, and its table file is on the shelf in its place.
    pub compiled: bool,
}

// Whether a row holds: words, a program, an input, what is written, the answer, and ports if they
// aren't the usual ones. The option is one more word.
fn row_holds<R: Threads + Sync>(
    rt: &R,
    alloc: Global,
    rows: CallRows<'_>,
    row: &str,
    option: &str,
) -> Result<bool, Fail> {
    let feed = rows.feed;
    let mut parts = row.split(" # ");
    let words = parts.next().ok_or("no words")?;
    let words = format!(in alloc; "kex {words} {option}")?;
    let text = bytes_of(alloc, parts.next().ok_or("no program")?, feed)?;
    let program = if rows.compiled {
        table_of(rt, alloc, text.as_slice())?
    } else {
        text
    };
    let input = bytes_of(alloc, parts.next().ok_or("no input")?, feed)?;
    let held = bytes_of(alloc, parts.next().ok_or("no output")?, feed)?;
    let answer = parts.next().ok_or("no answer")?;
    let ports = match parts.next() {
        Some(part) => ports_of(part)?,
        None => USUAL,
    };
    let case = Case {
        words: words.as_str(),
        program: program.as_slice(),
        input: input.as_slice(),
        held: held.as_slice(),
        answer,
        ports,
    };
    holds(rt, alloc, &case)
}

/// Fails at the first row that doesn't hold with one of the options.
pub(crate) fn each_holds<R: Threads + Sync>(
    rt: &R,
    alloc: Global,
    text: &str,
    options: &[&str],
) -> Result<(), Fail> {
    let rows = CallRows {
        text,
        feed: '$',
        compiled: false,
    };
    each_row_holds(rt, alloc, rows, options)
}

/// The same of rows that are read so.
pub(crate) fn each_row_holds<R: Threads + Sync>(
    rt: &R,
    alloc: Global,
    rows: CallRows<'_>,
    options: &[&str],
) -> Result<(), Fail> {
    for row in rows.text.trim().lines() {
        for option in options {
            if !row_holds(rt, alloc, rows, row, option)? {
                return Err(Fail::new(format_args!("{option}: {row}")));
            }
        }
    }
    Ok(())
}
