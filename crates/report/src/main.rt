// Prints the report of a type table's file: of standard input, or of each file that an argument names. 5,123 bytes settle any file.
#![tactic(auto)]

ghost use Rattle.std.specs.Prelude.{OnOk};
ghost use Rattle.report.specs.Reported.{Reports};

use std::env::{Env, FillError};
use std::fs::Files;
use std::io;
use std::io::{Read, Write};

// So many bytes of a file settle its report.
const FILE_BYTES: usize = 5123;

// The report of what an input has. Where a read fails, it is that of the bytes before.
fn report_of<R: Read, W: Write>(input: &mut R, out: &mut W) -> io::Result<()>
    ensures { OnOk result (Reports FILE_BYTES (R.remaining input.old) (R.remaining input.new)
        (W.contents out.old) (W.contents out.new)) }
{
    let mut file = [0u8; FILE_BYTES];
    let (read, _) = inputs::read_full(input, &mut file);
    let mut text = [0u8; reports::REPORT_BYTES];
    let filled = reports::report_file(&file[..read], &mut text);
    out.write_all(&text[..filled])
}

// The report of the file that an argument names. Of one that can't be opened that is said, and nothing is reported.
fn report_arg(
    files: &impl Files,
    name: &[u8],
    out: &mut impl Write,
    err: &impl Print,
) -> io::Result<()> {
    match inputs::open(files, name) {
        Ok(mut file) => report_of(&mut file, out),
        Err(why) => {
            inputs::say(err, name, why);
            Ok(())
        }
    }
}

fn main(rt: HostRuntime) -> io::Result<()> {
    let mut out = rt.stdout();
    let err = rt.stderr();
    let mut name = [0u8; inputs::NAME_BYTES];
    for i in 1..usize::MAX {
        match rt.arg(i, &mut name) {
            Ok(named) => report_arg(&rt, &name[..named], &mut out, &err)?,
            Err(FillError::TooLong) => inputs::say_too_long(&err),
            Err(FillError::NotPresent) if i == 1 => return report_of(&mut rt.stdin(), &mut out),
            Err(FillError::NotPresent) => break,
        }
    }
    Ok(())
}
