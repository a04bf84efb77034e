// Replays lists of recorded answers against the library: of standard input, or of each file that an argument names. Prints a line for each case
// that differs, then for each call how many of its cases were replayed and how many of them differed, and the sums. The form of a list stands at
// the head of oracle/src/bin/record.rs.
#![tactic(auto)]

use lists::Reader;
use replay::{Entry, LAST_NUMBER, take_step};
use replay_parts::Table;
use std::env::{Env, FillError};
use std::fs::Files;
use std::io;
use std::io::Read;

// A list is shorter.
const LIST_BYTES: usize = 98304;

// How many cases were replayed, and how many of them differed.
#[derive(Clone, Copy, Default)]
struct Tally {
    replayed: u64,
    differing: u64,
}

impl Tally {
    // Counts one more case. No list has so many that the numbers would stop.
    fn count(&mut self, agrees: bool) {
        self.replayed = self.replayed.saturating_add(1);
        if !agrees {
            self.differing = self.differing.saturating_add(1);
        }
    }
}

// How many numbers the entries of a list have.
const NUMBERS: usize = LAST_NUMBER as usize + 1;

// The cases of each call, with those of tables, by their numbers, and all cases. An array and no map: the program has fixed memory and no heap.
#[derive(Clone, Copy)]
struct Tallies {
    by_number: [Tally; NUMBERS],
    all: Tally,
}

// Replays the cases of a list, counts them, and prints a line for each that is not as the list expects. Answers whether the list has them all: it
// can't be read on where it ends early, or has a number that no list has.
fn replay_cases(rt: &impl Print, list: &mut Reader, tallies: &mut Tallies) -> io::Result<bool> {
    let Some(cases) = list.number() else {
        return Ok(false);
    };
    let mut table = Table::untouched();
    for case in 0..cases {
        let Some(step) = take_step(list, &mut table) else {
            return Ok(false);
        };
        if !step.agrees {
            println!(rt; "case {case} differs: {}", step.entry)?;
        }
        tallies.by_number[usize::from(step.entry.number())].count(step.agrees);
        tallies.all.count(step.agrees);
    }
    Ok(true)
}

// Replays a list, and prints what it finds: of each call that the list has cases of, in the order of include/calls.list, of its tables, and of all.
fn replay_list(rt: &impl Print, list: &[u8]) -> io::Result<()> {
    let mut list = Reader::new(list);
    let mut tallies = Tallies {
        by_number: [Tally::default(); NUMBERS],
        all: Tally::default(),
    };
    let whole = replay_cases(rt, &mut list, &mut tallies)?;
    for number in 0..=LAST_NUMBER {
        let tally = tallies.by_number[usize::from(number)];
        if tally.replayed != 0 {
            let entry = Entry::numbered(number);
            println!(rt;
                "{entry}: {} replayed, {} differ",
                tally.replayed, tally.differing
            )?;
        }
    }
    let Tally {
        replayed,
        differing,
    } = tallies.all;
    println!(rt; "{replayed} cases, {differing} differ")?;
    if !whole {
        println!(rt; "the list is damaged at case {replayed}")
    } else if !list.is_empty() {
        println!(rt; "bytes follow the last case")
    } else {
        Ok(())
    }
}

// Replays what an input has. Where a read fails, the list is the bytes before.
fn replay_file(rt: &impl Print, input: &mut impl Read) -> io::Result<()> {
    let mut file = [0u8; LIST_BYTES];
    let (n, _) = inputs::read_full(input, &mut file);
    if n == LIST_BYTES {
        return println!(rt; "the list is too long");
    }
    replay_list(rt, &file[..n])
}

// Replays the file that an argument names. Of one that can't be opened that is said, and nothing is replayed.
fn replay_arg(rt: &(impl Files + Print), name: &[u8], err: &impl Print) -> io::Result<()> {
    match inputs::open(rt, name) {
        Ok(mut file) => {
            rt.write_all(name)?;
            println!(rt; "")?;
            replay_file(rt, &mut file)
        }
        Err(why) => {
            inputs::say(err, name, why);
            Ok(())
        }
    }
}

fn main(rt: HostRuntime) -> io::Result<()> {
    let err = rt.stderr();
    let mut name = [0u8; inputs::NAME_BYTES];
    for i in 1..usize::MAX {
        match rt.arg(i, &mut name) {
            Ok(named) => replay_arg(&rt, &name[..named], &err)?,
            Err(FillError::TooLong) => inputs::say_too_long(&err),
            Err(FillError::NotPresent) if i == 1 => {
                return replay_file(&rt, &mut rt.stdin());
            },
            Err(FillError::NotPresent) => break,
        }
    }
    Ok(())
}
