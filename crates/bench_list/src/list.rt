// A bench list, from its text to its rows.
ghost use Rattle.std.specs.Prelude.{◌≡◌, ◌+◌, ◌^◌, ◌<◌, ◌≤◌, drop, length, IfOk, Some};
ghost use Rattle.std.specs.List.{before_first};
ghost use Rattle.bench_list.specs.Lines.{newline, lines_of, line_of};
ghost use Rattle.bench_list.specs.Reading.{Read, reading, Stepped, fault_text};

use crate::lines;
use std::error::Error;
use std::fmt;

// What is wrong with a list, and in which line, the first being 1.
#[derive(Clone, Copy, Debug, PartialEq, Eq)]
pub enum ListFault {
    NotANumber { line: usize },
    // The caller's slice has places for so many rows.
    TooManyRows { line: usize, places: usize },
}

impl fmt::Display for ListFault {
    ghost output = { λ fault. Some (fault_text fault) };

    fn fmt<W: fmt::Write>(&self, f: &mut fmt::Formatter<W>) -> fmt::Result {
        match self {
            ListFault::NotANumber { line } => {
                write!(f, "line {line}: not a number below 4294967296")
            },
            ListFault::TooManyRows { line, places } => {
                write!(f, "line {line}: more than {places} rows")
            },
        }
    }
}

impl Error for ListFault {}

// Reads the rows into the front of `rows`, and answers how many there are; the first fault ends it.
// The library has no heap: the caller lends the places, and the count says how many hold a row.
pub fn read_list(text: &[u8], rows: &mut [u32]) -> Result<usize, ListFault>
    ensures read { Read (reading (length rows.old) 0 1 (lines_of text.now)) rows.old result rows.new }
    ensures within { IfOk result (λ count. count ≤ length rows.old) }
{
    let mut count = 0;
    let mut index = 0;
    let mut at = 0;
    // By place, so that each line ends where `line_end` says; a split of the text took half as long again on many short lines.
    while at <= text.len() {
        let line = line_at(text, at);
        count = take_line(line, index, rows, count)?;
        at += line.len() + 1;
        index += 1;
    }
    Ok(count)
}

// The line that begins at `at`, without its newline.
#[tactic(auto, using(crate::proofs::ReadSteps::end_within))]
fn line_at(text: &[u8], at: usize) -> &[u8]
    requires { at ≤ length text.now }
    ensures { result.now ≡ before_first newline (drop at text.now) }
{
    &text[at..lines::line_end(text, at)]
}

// The line after `index` others, of which a row goes to the place `count`; answers how many rows there are then.
fn take_line(text: &[u8], index: usize, rows: &mut [u32], count: usize) -> Result<usize, ListFault>
    requires numbered { index + 1 < 2 ^ 64 }
    requires few { count ≤ length rows.old }
    ensures { Stepped (line_of text.now) (index + 1) count rows.old result rows.new }
{
    let line = index + 1;
    let row = lines::read_line(text).map_err(|_| ListFault::NotANumber { line })?;
    let Some(number) = row else {
        return Ok(count);
    };
    if count == rows.len() {
        return Err(ListFault::TooManyRows {
            line,
            places: rows.len(),
        });
    }
    rows[count] = number;
    Ok(count + 1)
}
