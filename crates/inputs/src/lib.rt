// What the programs read: standard input, or the files that their arguments name.
#![tactic(auto)]

ghost use Rattle.std.specs.Prelude.{◌<◌, ◌≤◌, length, take, OnOk};
ghost use Rattle.std.specs.Io.KnownBytes.{Consumes, IsAtEnd};

use std::fs::{File, Files};
use std::io;
use std::io::{Error, ErrorKind, Read};

// What holds any name that the system opens. An argument that is longer names no file.
pub const NAME_BYTES: usize = 4096;

// Reads until the buffer is full, the input ends or a read fails. Answers how many bytes now stand at the front of the buffer, and whether a read
// failed.
pub fn read_full<R: Read>(input: &mut R, buffer: &mut [u8]) -> (usize, io::Result<()>)
    ensures fits { result.0 ≤ length buffer.new }
    ensures bytes { Consumes (R.remaining input.old) (R.remaining input.new) (take result.0 buffer.new) }
    ensures whole { OnOk result.1 (result.0 < length buffer.new → IsAtEnd (R.remaining input.new)) }
{
    let mut done = 0;
    while done < buffer.len() {
        match input.read(&mut buffer[done..]) {
            Ok(0) => return (done, Ok(())),
            Ok(n) => done += n,
            Err(why) => return (done, Err(why)),
        }
    }
    (done, Ok(()))
}

// Opens the file that an argument names. The library opens only names that are text.
pub fn open<F: Files>(files: &F, name: &[u8]) -> io::Result<F::File> {
    match str::from_utf8(name) {
        Ok(path) => File::open(files, path),
        Err(_) => Err(Error::new(ErrorKind::InvalidInput, "Not UTF-8")),
    }
}

fn try_to_say(err: &impl Print, what: &[u8], why: Error) -> io::Result<()> {
    err.write_all(what)?;
    println!(err; ": {why}")
}

// Says on standard error what failed, and why. Where that can't be written either, there is nowhere left to say it.
pub fn say(err: &impl Print, what: &[u8], why: Error) {
    let _ = try_to_say(err, what, why);
}

// Says that an argument is longer than any name that the system opens.
pub fn say_too_long(err: &impl Print) {
    let why = Error::new(ErrorKind::InvalidFilename, "File name too long");
    say(err, b"argument", why);
}
