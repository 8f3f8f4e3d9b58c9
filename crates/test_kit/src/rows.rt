//! Rows: their headings, and the walk along their lines.
//!
//! | a line | says |
//! |---|---|
//! | `row NAME` | how the row is called |
//! | `limits H B N R K S M` | the limits, in the order of `Limits::new`; the usual ones if left out |
//! | `after NAME` | first the lines of that row, of the same list, are followed |
//! | `recording JSON`, `debuggee WORD` | for those who follow rows over a recording, and over one of several debuggees |
//! | `# ..`, none | nothing |
//!
//! What other lines say stands with each kind of row.

use crate::bodies::word_at;
use crate::given::wrong;
use crate::outcome::Outcome;
use crate::player::{Player, Setting};
use dap_frame::Limits;
use std::alloc::{AllocError, Global};
use std::test::Fail;
use std::{io, str};

/// How a row ended: in a line of a row.
#[derive(Clone, Copy)]
struct End {
    outcome: Outcome,
    /// The place of the row in its list.
    place: usize,
    /// The line in that row, counted from 1.
    line: usize,
}

/// What stands behind a word with which one of the lines begins.
pub fn heading<'a>(row: &'a str, word: &str) -> Option<&'a str> {
    row.split('\n').find_map(|line| line.strip_prefix(word))
}

/// Whether a line says nothing to whoever follows the row.
pub fn is_heading(line: &str) -> bool {
    line.is_empty()
        || line.starts_with('#')
        || line.starts_with("row ")
        || line.starts_with("limits ")
        || line.starts_with("after ")
        || line.starts_with("recording ")
        || line.starts_with("debuggee ")
}

/// The name of a row.
fn name_of(row: &str) -> &str {
    heading(row, "row ").unwrap_or("without a name")
}

fn number_at(text: &str, place: usize) -> Option<u64> {
    word_at(text, place).parse::<u64>().ok()
}

/// The limits of seven numbers.
fn limits_of(text: &str) -> Option<Limits> {
    Limits::new(
        number_at(text, 0)?,
        number_at(text, 1)?,
        number_at(text, 2)?,
        number_at(text, 3)?,
        number_at(text, 4)?,
        number_at(text, 5)?,
        number_at(text, 6)?,
    )
    .ok()
}

/// The limits that a row names, or the usual ones.
fn limits_in(row: &str) -> Option<Limits> {
    match heading(row, "limits ") {
        None => Some(Limits::usual()),
        Some(text) => limits_of(text),
    }
}

/// The place of the row with a name.
fn place_of(rows: &[&str], name: &str) -> Option<usize> {
    rows.iter().position(|row| name_of(row) == name)
}

/// Follows the lines of a row.
fn follow_lines<P: Player>(
    alloc: Global,
    player: &mut P,
    row: &str,
    place: usize,
    came: &mut String,
) -> End {
    let mut line: usize = 0;
    for text in row.split('\n') {
        line = line.saturating_add(1);
        if is_heading(text) {
            continue;
        }
        came.clear();
        let outcome = player.follow(alloc, text, came);
        if outcome != Outcome::Right {
            return End {
                outcome,
                place,
                line,
            };
        }
    }
    came.clear();
    End {
        outcome: player.finish(alloc, came),
        place,
        line,
    }
}

/// Follows the row in a place.
fn follow_place<P: Player>(
    alloc: Global,
    player: &mut P,
    rows: &[&str],
    place: usize,
    came: &mut String,
) -> End {
    match rows.get(place) {
        Some(row) => follow_lines(alloc, player, row, place, came),
        None => End {
            outcome: wrong(came, "no such row"),
            place,
            line: 0,
        },
    }
}

/// Follows a row, and first the one that it comes after.
fn follow_row<P: Player>(
    alloc: Global,
    player: &mut P,
    rows: &[&str],
    place: usize,
    before: Option<usize>,
    came: &mut String,
) -> End {
    if let Some(before) = before {
        let end = follow_place(alloc, player, rows, before, came);
        if end.outcome != Outcome::Right {
            return end;
        }
        player.forget();
    }
    follow_place(alloc, player, rows, place, came)
}

/// The place of the row that one comes after, if it names one.
fn before(rows: &[&str], row: &str) -> Option<Option<usize>> {
    match heading(row, "after ") {
        None => Some(None),
        Some(name) => place_of(rows, name).map(Some),
    }
}

/// Plays a row with a fresh player.
fn play<P: Player>(
    alloc: Global,
    rows: &[&str],
    place: usize,
    setting: &Setting<'_>,
    came: &mut String,
) -> End {
    let Some(before) = before(rows, setting.row) else {
        return End {
            outcome: wrong(came, "no row has the name after which this one comes"),
            place,
            line: 1,
        };
    };
    match P::open(alloc, setting, came) {
        Ok(mut player) => {
            let end = follow_row(alloc, &mut player, rows, place, before, came);
            // The proof of a call is shorter than that of a value that goes out of scope.
            drop(player);
            end
        }
        Err(outcome) => End {
            outcome,
            place,
            line: 1,
        },
    }
}

/// Plays a row in pieces of a size.
fn play_in<P: Player>(
    alloc: Global,
    rows: &[&str],
    place: usize,
    row: &str,
    size: usize,
    came: &mut String,
) -> End {
    match limits_in(row) {
        Some(limits) => play::<P>(alloc, rows, place, &Setting { limits, size, row }, came),
        None => End {
            outcome: wrong(came, "limits that are none"),
            place,
            line: 1,
        },
    }
}

/// The text of a line, counted from 1.
fn line_of<'a>(rows: &[&'a str], end: End) -> &'a str {
    match rows.get(end.place) {
        Some(row) => row
            .split('\n')
            .nth(end.line.saturating_sub(1))
            .unwrap_or(""),
        None => "",
    }
}

fn name_at<'a>(rows: &[&'a str], place: usize) -> &'a str {
    match rows.get(place) {
        Some(row) => name_of(row),
        None => "",
    }
}

/// Tells that a row is wrong.
fn tell_wrong(
    rt: &HostRuntime,
    rows: &[&str],
    end: End,
    size: usize,
    came: &str,
) -> io::Result<()> {
    let (name, text) = (name_at(rows, end.place), line_of(rows, end));
    if size < usize::MAX {
        eprintln!(rt; "in pieces of {size}:")?;
    }
    eprintln!(rt; "row '{name}', line {}: {text}", end.line)?;
    eprintln!(rt; "    what came: {came}")
}

/// Whether memory may be refused.
#[derive(Clone, Copy, PartialEq, Eq)]
enum Memory {
    Ample,
    Short,
}

/// Tells how a row ended, unless it is right: whether it is as it should be.
fn tell(
    rt: &HostRuntime,
    rows: &[&str],
    end: End,
    size: usize,
    memory: Memory,
    came: &str,
) -> io::Result<bool> {
    match end.outcome {
        Outcome::Right => Ok(true),
        Outcome::Refused if memory == Memory::Short => {
            eprintln!(rt; "refused")?;
            Ok(true)
        }
        Outcome::Refused => {
            tell_wrong(rt, rows, end, size, "memory was refused")?;
            Ok(false)
        }
        Outcome::Wrong => {
            tell_wrong(rt, rows, end, size, came)?;
            Ok(false)
        }
    }
}

/// Plays one row, and tells how it ended.
fn is_as_told<P: Player>(
    rt: &HostRuntime,
    rows: &[&str],
    place: usize,
    row: &str,
    size: usize,
    memory: Memory,
) -> io::Result<bool> {
    let mut came = String::new(rt.alloc());
    let end = play_in::<P>(rt.alloc(), rows, place, row, size, &mut came);
    tell(rt, rows, end, size, memory, came.as_str())
}

/// Plays each row in pieces of a size; each that is wrong is told, and then the test fails. There is memory enough, so one that
/// is refused memory is wrong too.
pub fn play_rows<P: Player>(rt: &HostRuntime, rows: &[&str], size: usize) -> Result<(), Fail> {
    let mut all = true;
    for (place, row) in rows.iter().enumerate() {
        if !is_as_told::<P>(rt, rows, place, row, size, Memory::Ample)? {
            all = false;
        }
    }
    if all {
        Ok(())
    } else {
        Err(Fail::from("a row is wrong"))
    }
}

/// Plays the row in a place where memory may be refused, which is noted.
pub fn play_row_short_of_memory<P: Player>(
    rt: &HostRuntime,
    rows: &[&str],
    place: usize,
) -> Result<(), Fail> {
    let row = rows.get(place).copied().unwrap_or("");
    if is_as_told::<P>(rt, rows, place, row, usize::MAX, Memory::Short)? {
        Ok(())
    } else {
        Err(Fail::from("a row is wrong"))
    }
}

/// Appends so many letters, all the same.
pub fn add_many(
    alloc: Global,
    row: &mut String,
    letter: u8,
    count: usize,
) -> Result<(), AllocError> {
    let letters = vec![in alloc; letter; count]?;
    let added = match str::from_utf8(&letters) {
        Ok(text) => row.push_str(text),
        Err(_) => Ok(()),
    };
    // The proof of a call is shorter than that of a value that goes out of scope.
    drop(letters);
    added
}

/// What one row comes to, and in which of its lines, counted from 1.
pub fn outcome_of<P: Player>(alloc: Global, row: &str) -> (Outcome, usize) {
    let rows: [&str; 1] = [row];
    let mut came = String::new(alloc);
    let end = play_in::<P>(alloc, &rows, 0, row, usize::MAX, &mut came);
    (end.outcome, end.line)
}
