// The run program: a table and a schedule from the files that its two arguments name, their run to standard output.
#![tactic(auto)]

use run_text::run_text;
use std::env::{Env, FillError};
use std::fs::File;
use std::{fmt, io, str};
use whole_input::read_full;

// One byte more than the longest table.
const TABLE_BYTES: usize = 16129;

// One byte more than the longest schedule.
const SCHEDULE_BYTES: usize = 32769;

// So many bytes hold every text of a run: a buffer of a fixed size and the length laid, since there is no heap here.
const TEXT_BYTES: usize = 8192;

// So many bytes hold every file name.
const NAME_BYTES: usize = 4096;

// Why there is no run to print; a file that fails is told by its name or by what it holds.
#[derive(Debug, Drop)]
enum Trouble<'a> {
    Usage,
    LongName,
    OtherName,
    Failed(&'a str, io::Error),
}

impl fmt::Display for Trouble<'_> {
    fn fmt<W: fmt::Write>(&self, f: &mut fmt::Formatter<W>) -> fmt::Result {
        match self {
            Trouble::Usage => write!(f, "usage: run_program TABLE SCHEDULE"),
            Trouble::LongName => write!(f, "file name: it is too long"),
            Trouble::OtherName => write!(f, "file name: it is not UTF-8"),
            Trouble::Failed(what, error) => write!(f, "{what}: {error}"),
        }
    }
}

// Whether there is an argument of that number.
fn is_given(rt: &HostRuntime, argument: usize) -> bool {
    let mut name = [0; NAME_BYTES];
    !matches!(rt.arg(argument, &mut name), Err(FillError::NotPresent))
}

fn open_named<'a>(
    rt: &HostRuntime,
    argument: usize,
    buffer: &'a mut [u8],
) -> Result<File, Trouble<'a>> {
    let Ok(length) = rt.arg(argument, buffer) else {
        return Err(Trouble::LongName);
    };
    let Ok(name) = str::from_utf8(&buffer[..length]) else {
        return Err(Trouble::OtherName);
    };
    File::open(rt, name).map_err(|error| Trouble::Failed(name, error))
}

fn read_whole<'a>(
    what: &'a str,
    mut file: File,
    buffer: &'a mut [u8],
) -> Result<&'a [u8], Trouble<'a>> {
    match read_full(&mut file, buffer) {
        Ok(count) => Ok(&buffer[..count]),
        Err(error) => Err(Trouble::Failed(what, error)),
    }
}

// The table and the schedule; both files are open before either is read.
fn read_both<'a>(
    rt: &HostRuntime,
    first: &'a mut [u8],
    second: &'a mut [u8],
    table: &'a mut [u8],
    schedule: &'a mut [u8],
) -> Result<(&'a [u8], &'a [u8]), Trouble<'a>> {
    if !is_given(rt, 2) || is_given(rt, 3) {
        return Err(Trouble::Usage);
    }
    let first = open_named(rt, 1, first)?;
    let second = open_named(rt, 2, second)?;
    let table = read_whole("table", first, table)?;
    let schedule = read_whole("schedule", second, schedule)?;
    Ok((table, schedule))
}

// The run, printed.
fn answer(rt: &impl Print, table: &[u8], schedule: &[u8]) -> io::Result<()> {
    let mut text = [0; TEXT_BYTES];
    let length = run_text(table, schedule, &mut text);
    rt.write_all(&text[..length])
}

// The table and the schedule have room for one byte more than the longest input, so that a longer one is seen.
fn main(rt: HostRuntime) -> io::Result<()> {
    let mut first = [0; NAME_BYTES];
    let mut second = [0; NAME_BYTES];
    let mut table = [0; TABLE_BYTES];
    let mut schedule = [0; SCHEDULE_BYTES];
    match read_both(&rt, &mut first, &mut second, &mut table, &mut schedule) {
        Ok((table, schedule)) => answer(&rt, table, schedule),
        Err(trouble) => eprintln!(rt; "{trouble}"),
    }
}
