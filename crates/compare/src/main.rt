// Compares two recordings, the files that its arguments name: on standard output one line a difference, or the one line of a refusal; on
// standard error a line that sums up, or says in words which file is refused, at which line and why.
#![tactic(auto)]

ghost use Rattle.std.specs.Prelude.{◌≤◌, length, IfOk, IfSome};

use comparing::{
    Compared, DIFFERENCES, LINE, SUMMARY, Side, compare, write_difference, write_refused,
    write_summary,
};
use refusal::Refusal;
use std::env::FillError;
use std::fs::File;
use std::io::{Cursor, Error, ErrorKind, Read, Write};
use std::rt::{Env, Files};
use std::str;

// The descriptors of standard output and of standard error.
const STDOUT_FILENO: i32 = 1;

const STDERR_FILENO: i32 = 2;

// The system's numbers for an argument that is not there and for a name that is too long.
const EINVAL: i32 = 22;

const ENAMETOOLONG: i32 = 36;

// A recording has at most 24,576 bytes. The room for one has a byte more, by which a larger file shows itself.
const ROOM: usize = 24_577;

fn complain(what: &[u8]) {
    io::write_all(STDERR_FILENO, what);
}

// The text of an error without the number that std puts behind the system's words.
fn words_of(text: &str) -> &str {
    match text.split_once(" (os error ") {
        Some((words, _)) => words,
        None => text,
    }
}

// The room is enough for the longest text of an error, whose words the system has in 256 bytes.
fn complain_error(error: Error) {
    let mut room = Cursor::new([0u8; 320]);
    let _ = write!(room, "{error}");
    let text = room.get_ref();
    let length = (room.position() as usize).min(text.len());
    if let Ok(text) = str::from_utf8(&text[..length]) {
        complain(words_of(text).as_bytes());
    }
}

// Says on what a call failed, and why.
fn complain_of(what: &[u8], error: Error) {
    complain(b"compare: ");
    complain(what);
    complain(b": ");
    complain_error(error);
    complain(b"\n");
}

// Why a file gives no recording.
#[derive(Clone, Copy)]
enum Fault {
    Larger,
    Failed(Error),
}

impl From<Error> for Fault {
    fn from(error: Error) -> Fault {
        Fault::Failed(error)
    }
}

fn complain_of_fault(name: &[u8], fault: Fault) {
    match fault {
        Fault::Larger => {
            complain(b"compare: ");
            complain(name);
            complain(b": more than 24,576 bytes\n");
        }
        Fault::Failed(error) => complain_of(name, error),
    }
}

// Reads up to the file's end, and says how many bytes it has. A turn that adds no byte is the last, so that the loop ends. It goes on by what a read gave, which no `for` says plainer.
fn read_all(file: &mut impl Read, into: &mut [u8]) -> Result<usize, Fault>
    ensures { IfOk result (λ n. n ≤ length into.old) }
{
    let mut n: usize = 0;
    while n < into.len() {
        let more = file.read(&mut into[n..])?;
        if more == 0 {
            return Ok(n);
        }
        n += more;
    }
    Err(Fault::Larger)
}

// Opens the file of a name. Of a name that is not UTF-8 std opens none.
fn open<R: Files>(rt: &R, name: &[u8]) -> std::io::Result<R::File> {
    match str::from_utf8(name) {
        Ok(path) => File::open(rt, path),
        Err(_) => Err(Error::from(ErrorKind::InvalidFilename)),
    }
}

fn read_named(rt: &impl Files, name: &[u8], into: &mut [u8]) -> Result<usize, Fault>
    ensures { IfOk result (λ n. n ≤ length into.old) }
{
    let mut file = open(rt, name)?;
    read_all(&mut file, into)
}

// Why an argument could not be had, in the system's words.
fn missed(error: FillError) -> Error {
    match error {
        FillError::NotPresent => Error::from_raw_os_error(EINVAL),
        FillError::TooLong => Error::from_raw_os_error(ENAMETOOLONG),
    }
}

// Reads the file that an argument names, and says how many bytes it has: none where it is no recording, and then why was said.
fn load(rt: &(impl Env + Files), argument: usize, meaning: &[u8], into: &mut [u8]) -> Option<usize>
    ensures { IfSome result (λ n. n ≤ length into.old) }
{
    let mut name = io::buffer();
    let length = match rt.arg(argument, &mut name) {
        Ok(length) => length,
        Err(error) => {
            complain_of(meaning, missed(error));
            return None;
        }
    };
    let name = &name[..length];
    match read_named(rt, name, into) {
        Ok(n) => Some(n),
        Err(fault) => {
            complain_of_fault(name, fault);
            None
        }
    }
}

// That standard output could not be written.
#[derive(Clone, Copy)]
struct Unwritten;

// Writes the start of a text. No text is as long as its room, so that the text is always there.
fn write_start(text: &[u8], length: usize) -> Result<(), Unwritten> {
    let Some(text) = text.get(..length) else {
        return Err(Unwritten);
    };
    if io::write_all(STDOUT_FILENO, text) {
        Ok(())
    } else {
        Err(Unwritten)
    }
}

fn show_difference(word: u64) -> Result<(), Unwritten> {
    let mut text = [0u8; LINE];
    let length = write_difference(word, &mut text);
    write_start(&text, length)
}

// Writes a list, up to the first difference that cannot be written, and then what sums it up.
fn show_list(
    list: &[u64; DIFFERENCES],
    n: usize,
    first: usize,
    second: usize,
) -> Result<(), Unwritten> {
    for word in list.iter().take(n) {
        show_difference(*word)?;
    }
    let mut text = [0u8; SUMMARY];
    let length = write_summary(list, n, first, second, &mut text);
    if let Some(text) = text.get(..length) {
        complain(text);
    }
    Ok(())
}

fn argument_of(side: Side) -> usize {
    match side {
        Side::First => 1,
        Side::Second => 2,
    }
}

fn explain_file(env: &impl Env, side: Side) {
    let mut name = io::buffer();
    if let Ok(length) = env.arg(argument_of(side), &mut name) {
        complain(&name[..length]);
    }
}

fn explain_bad_line(line: usize) {
    if line == 1 {
        complain(b": no start number of eight digits, or the start numbers differ\n");
        return;
    }
    complain(b": no frame or payload as it must be, or its payload is missing\n");
}

fn explain(env: &impl Env, refusal: Refusal, side: Side, line: usize) {
    complain(b"compare: ");
    explain_file(env, side);
    complain(b": line ");
    io::print_decimal(STDERR_FILENO, line as u64);
    match refusal {
        Refusal::Far => complain(b": its number is 2^30 or more from the start number\n"),
        Refusal::Many => complain(b": more than 1,024 numbers\n"),
        _ => explain_bad_line(line),
    }
}

// Writes the line of a refusal, and then what it means.
fn show_refusal(
    env: &impl Env,
    refusal: Refusal,
    side: Side,
    line: usize,
) -> Result<(), Unwritten> {
    let mut text = [0u8; LINE];
    let length = write_refused(refusal, side, line, &mut text);
    write_start(&text, length)?;
    explain(env, refusal, side, line);
    Ok(())
}

fn show(env: &impl Env, compared: Compared, list: &[u64; DIFFERENCES]) -> Result<(), Unwritten> {
    match compared {
        Ok((n, first, second)) => show_list(list, n, first, second),
        Err((refusal, side, line)) => show_refusal(env, refusal, side, line),
    }
}

fn compare_files(env: &impl Env, first: &[u8], second: &[u8]) {
    let mut list = [0u64; DIFFERENCES];
    let compared = compare(first, second, &mut list);
    if show(env, compared, &list).is_err() {
        complain(b"compare: standard output cannot be written\n");
    }
}

// Whether the program was started with an argument of that number, of which 0 is its own name.
fn has_argument(env: &impl Env, argument: usize) -> bool {
    !matches!(env.arg(argument, &mut []), Err(FillError::NotPresent))
}

// Both files are read before either ends the program, so that each is told of.
fn main(rt: HostRuntime) {
    if !has_argument(&rt, 2) || has_argument(&rt, 3) {
        complain(b"usage: compare FIRST SECOND\n");
        return;
    }
    let mut first = [0u8; ROOM];
    let mut second = [0u8; ROOM];
    let n = load(&rt, 1, b"FIRST", &mut first);
    let m = load(&rt, 2, b"SECOND", &mut second);
    let Some(n) = n else {
        return;
    };
    let Some(m) = m else {
        return;
    };
    compare_files(&rt, &first[..n], &second[..m]);
}
