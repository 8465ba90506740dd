// Standard input and standard output for the programs, with failures told apart from the end of the input, and the status that a
// program tells its starter. No contract can speak of what is read or written. `answer_input` serves the programs and has a
// `requires`: what composes the answer can be called, and stays within its room.
#![tactic(auto)]

ghost use Rattle.std.specs.Prelude.{length, ◌≤◌, ◌≡◌};
ghost use Rattle.std.specs.Io.{ReadsAtMost, WritesAtMost};
ghost use Rattle.console.specs.Within.{Within};

use std::fs::OpenOptions;
use std::io::{ErrorKind, Read, Write};
use std::rt::{Env, Files};
use std::{fs, io, thread};

// How often in a row a call is tried that was interrupted or would have to wait.
pub const TRIES: u32 = 1000000;

// Descriptor 3, on which the starter listens for the status, by the system's name for it.
const STATUS_PATH: &str = "/proc/self/fd/3";

// Whether a call that failed in this way is worth another try; the others may run first.
fn again(kind: ErrorKind) -> bool {
    if kind == ErrorKind::WouldBlock {
        thread::yield_now();
    }
    matches!(kind, ErrorKind::Interrupted | ErrorKind::WouldBlock)
}

fn read_some(from: &mut impl Read, out: &mut [u8]) -> io::Result<usize>
    ensures { ReadsAtMost result out.new }
{
    for _ in 1..TRIES {
        match from.read(out) {
            Err(error) if again(error.kind()) => {}
            got => return got,
        }
    }
    from.read(out)
}

// Standard input to its end, or as much of it as there is room for: how many bytes that is.
pub fn read_input(rt: &impl io::Input, out: &mut [u8]) -> io::Result<usize>
    ensures { Within (length out.new) result }
{
    let mut from = rt.reader();
    let mut done: usize = 0;
    while done < out.len() {
        match read_some(&mut from, &mut out[done..])? {
            0 => break,
            n => done += n,
        }
    }
    Ok(done)
}

fn write_some(rt: &impl Print, bytes: &[u8]) -> io::Result<usize>
    ensures { WritesAtMost result bytes.now }
{
    for _ in 1..TRIES {
        match rt.write_some(bytes) {
            Err(error) if again(error.kind()) => {}
            put => return put,
        }
    }
    rt.write_some(bytes)
}

// All of these bytes on standard output, in one write where the system takes them whole.
pub fn write_output(rt: &impl Print, bytes: &[u8]) -> io::Result<()> {
    let mut rest = bytes;
    while !rest.is_empty() {
        match write_some(rt, rest)? {
            0 => return Err(io::Error::from(ErrorKind::WriteZero)),
            n => rest = &rest[n..],
        }
    }
    Ok(())
}

// Whether the starter listens: the program was started with the word `status`.
fn listens(rt: &impl Env) -> bool {
    let mut word = [0u8; 7];
    rt.arg(1, &mut word)
        .is_ok_and(|n| &word[..n] == b"status".as_slice())
}

// Behind what stands there already. The name's permissions say whether the descriptor is open for writing: where it is not, its
// file stays as it is.
fn write_status(rt: &impl Files, status: &[u8]) -> io::Result<()> {
    let name = fs::symlink_metadata(rt, STATUS_PATH)?;
    if name.permissions().readonly() {
        return Ok(());
    }
    let mut to = OpenOptions::new().append(true).open(rt, STATUS_PATH)?;
    to.write_all(status)
}

// Where the starter can't be told, the program ends as it would.
fn tell(rt: &(impl Env + Files), status: &[u8]) {
    if listens(rt) {
        let _ = write_status(rt, status);
    }
}

// What the program came to: 0 for a plan or `meets`, 1 for `tight` or `refused`.
pub fn tell_answer(rt: &(impl Env + Files), refused: bool) {
    tell(rt, if refused { b"1" } else { b"0" });
}

// A failure, in one line on standard error: what was tried, and why it failed. Its status is 2.
pub fn tell_failure(rt: &(impl Eprint + Env + Files), what: &[u8], error: &io::Error) {
    let tried = what.escape_ascii();
    let _ = eprintln!(rt; "{tried}: {error}");
    tell(rt, b"2");
}

// A whole program: standard input, read into `given`, is answered on standard output by what `compose` puts into `out`, and the
// starter is told. `compose` says how long the answer is and whether it refuses; `words` say what is tried, where it fails.
pub fn answer_input<F: Fn(&[u8], &mut [u8]) -> (usize, bool)>(
    rt: &(impl io::Input + Print + Eprint + Env + Files),
    words: [&[u8]; 2],
    given: &mut [u8],
    out: &mut [u8],
    compose: F,
)
    requires called { (file : _) (room : _) → length room.now ≡ length out.old → F.pre compose file room }
    requires in_room { (file : _) (room : _) (r : _) (left : _) → length room.now ≡ length out.old → F.post compose file room r left
        → r.0 ≤ length out.old }
{
    let [reading, writing] = words;
    match read_input(rt, given) {
        Ok(n) => {
            let (length, refused) = compose(&given[..n], out);
            match write_output(rt, &out[..length]) {
                Ok(()) => tell_answer(rt, refused),
                Err(error) => tell_failure(rt, writing, &error),
            }
        }
        Err(error) => tell_failure(rt, reading, &error),
    }
}
