//! Why bytes are no recording, and where.

use crate::reading::RecordingKey;
use dap_json::List;

/// A kind of JSON value, as RFC 8259 has them.
#[derive(Clone, Copy, Debug, PartialEq, Eq)]
pub enum JsonKind {
    Null,
    Boolean,
    Number,
    Text,
    Array,
    Object,
}

/// An element of the array at a key. The first has the index 0.
#[derive(Clone, Copy, Debug, PartialEq, Eq)]
pub struct Element {
    pub array: RecordingKey,
    pub index: u64,
}

/// What is wrong with the value at a key.
#[derive(Clone, Copy, Debug, PartialEq, Eq)]
pub enum BadCause {
    /// There is none, and one is due.
    Absent,
    /// It is of another kind than is due.
    OtherKind {
        found: JsonKind,
        due: JsonKind,
    },
    /// An earlier thread of the moment has the id.
    DuplicateId {
        id: i64,
    },
    /// No thread of the moment has the id.
    NoThread {
        id: i64,
    },
    /// An array that has to have elements has none.
    NoElements,
    /// An array has so many elements, more than 65536.
    TooMany {
        count: u64,
    },
    /// A number is no whole number from the least to the greatest. It is told where it is a whole number of 64 bits.
    OutOfRange {
        number: Option<i64>,
        least: i64,
        greatest: i64,
    },
    /// A text has so many bytes, more than it may have.
    TooLong {
        bytes: u64,
        most: u64,
    },
    /// An object has a float among its members, or nests more than 100 deep.
    NotPlain,
    /// A source of a frame is not below the count of sources.
    NoSource {
        source: u32,
        count: u64,
    },
    /// A line of a frame is past those of its source's text.
    PastLines {
        line: u32,
        lines: u64,
    },
}

/// The first bad key of a recording, in the order of the format.
#[derive(Debug, Drop)]
pub struct BadPlace {
    /// The elements that it is in, the outermost first.
    pub within: List<Element>,
    pub key: RecordingKey,
    /// The element of the array at the key, where it is an element that is bad.
    pub element: Option<u64>,
    pub cause: BadCause,
}

/// Why bytes are no recording.
#[derive(Debug, Drop)]
pub enum RecordingRefusal {
    /// They are not UTF-8 or no JSON value, nest deeper than 127, or have a number too great for a float.
    NotJson,
    /// They are a JSON value of this kind, and no object.
    NotObject { found: JsonKind },
    /// A key is bad.
    BadKey(BadPlace),
}
