//! `read_whole`: files that are read in pieces, and reads that fail.

use crate::listings::FOUR;
use crate::serving::frames_of;
use crate::told::expect_none;
use dap_channel::{Channel, Input};
use dap_tool::{FileFault, MAX_FILE, read_whole};
use std::alloc::Global;
use std::io;
use std::test::Fail;
use test_kit::samples::THREADS;
use test_kit::streams::Pieces;

/// What reading in pieces of some size gives, where so many reads succeed and a length is foretold.
fn read_in(
    alloc: Global,
    input: &[u8],
    size: usize,
    calls_left: usize,
    expected: u64,
) -> Result<Vec<u8>, FileFault> {
    let reader = Pieces {
        rest: input,
        size: size.max(1),
        calls_left,
    };
    read_whole(alloc, &mut Input { reader }, expected)
}

/// Whether reading gives all of the input.
fn is_read(alloc: Global, input: &[u8], size: usize, calls_left: usize, expected: u64) -> bool {
    match read_in(alloc, input, size, calls_left, expected) {
        Ok(bytes) => bytes.as_slice() == input,
        Err(_) => false,
    }
}

/// Whether reading fails so.
fn fails(alloc: Global, input: &[u8], size: usize, calls_left: usize, wanted: FileFault) -> bool {
    match read_in(alloc, input, size, calls_left, 0) {
        Ok(bytes) => {
            drop(bytes);
            false
        }
        Err(fault) => fault == wanted,
    }
}

/// The size of pieces, and the length that is foretold.
static PIECES: [(usize, u64); 4] = [(1, 0), (7, 275), (100000, 5), (100000, u64::MAX)];

fn other_piece(alloc: Global, input: &[u8]) -> Option<usize> {
    for (place, (size, expected)) in PIECES.iter().enumerate() {
        if !is_read(alloc, input, *size, usize::MAX, *expected) {
            return Some(place);
        }
    }
    None
}

fn other_of_four(alloc: Global) -> Option<usize> {
    match frames_of(alloc, &FOUR) {
        Some(input) => other_piece(alloc, &input),
        None => Some(0),
    }
}

/// A reader is read to its end, in pieces of any size and whatever length is foretold.
#[test]
fn files_are_read_whole(rt: HostRuntime) -> Result<(), Fail> {
    expect_none(&rt, other_of_four(rt.alloc()))
}

/// With how many reads it goes otherwise.
fn other_count(alloc: Global, input: &[u8]) -> Option<usize> {
    for calls in 0..5 {
        if !fails(alloc, input, 70, calls, FileFault::Read) {
            return Some(calls);
        }
    }
    if is_read(alloc, input, 70, 5, 0) {
        None
    } else {
        Some(5)
    }
}

fn other_count_of_four(alloc: Global) -> Option<usize> {
    match frames_of(alloc, &FOUR) {
        Some(input) => other_count(alloc, &input),
        None => Some(0),
    }
}

/// A read that fails is told: four reads give all 275 bytes, and the fifth and last finds the end.
#[test]
fn failing_reads_are_told(rt: HostRuntime) -> Result<(), Fail> {
    expect_none(&rt, other_count_of_four(rt.alloc()))
}

/// Whether something is unsupported.
fn is_unsupported<T: Drop>(done: io::Result<T>) -> bool {
    match done {
        Ok(_) => false,
        Err(error) => error.kind() == io::ErrorKind::Unsupported,
    }
}

/// Whether nothing is written to an input, and its reader stays as it was.
fn takes_nothing() -> bool {
    let reader = Pieces {
        rest: THREADS,
        size: 1,
        calls_left: usize::MAX,
    };
    let mut input = Input { reader };
    is_unsupported(input.write(b"x"))
        && is_unsupported(input.flush())
        && input.reader.rest == THREADS.as_slice()
}

/// Nothing is written to an input, and its reader stays as it was.
#[test]
fn inputs_take_nothing(rt: HostRuntime) {
    assert!(rt; takes_nothing());
}

/// Whether all but the last byte is read, and all of them are too many.
fn is_greatest(alloc: Global, bytes: &[u8]) -> bool {
    let (most, _) = bytes.split_at(MAX_FILE.min(bytes.len()));
    most.len() == MAX_FILE
        && bytes.len() == MAX_FILE + 1
        && is_read(alloc, most, usize::MAX, usize::MAX, MAX_FILE as u64)
        && fails(alloc, bytes, usize::MAX, usize::MAX, FileFault::FileTooLong)
}

fn is_greatest_read(alloc: Global) -> bool {
    match vec![in alloc; b' '; MAX_FILE + 1] {
        Ok(bytes) => is_greatest(alloc, &bytes),
        Err(_) => false,
    }
}

/// A file of the greatest length is read, and one with a byte more is refused.
#[test]
fn greatest_length_of_a_file(rt: HostRuntime) {
    assert!(rt; is_greatest_read(rt.alloc()));
}
