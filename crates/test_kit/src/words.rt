//! The words with which lines of rows begin.

/// What a line says, by its first word.
#[derive(Clone, Copy, PartialEq, Eq)]
pub enum Word {
    /// `>`: a message of the client.
    Client,
    /// `<`: a message of the adapter.
    Adapter,
    /// `!`: a fault.
    Fault,
    Turn,
    Idle,
    Poll,
    Send,
    /// `answer`: a request of the other side is answered.
    Answer,
    /// `oldest`: the oldest of those that wait.
    Oldest,
    Bytes,
    Phase,
    Ready,
    Not,
    /// `free of memory`.
    Free,
    Count(Counted),
}

/// What is counted.
#[derive(Clone, Copy, PartialEq, Eq)]
pub enum Counted {
    Waiting,
    Reverse,
    References,
    Breakpoints,
    Held,
}

static WORDS: [(&str, Word); 21] = [
    (">", Word::Client),
    ("<", Word::Adapter),
    ("!", Word::Fault),
    ("turn", Word::Turn),
    ("idle", Word::Idle),
    ("poll", Word::Poll),
    ("send", Word::Send),
    ("answer", Word::Answer),
    ("oldest", Word::Oldest),
    ("bytes", Word::Bytes),
    ("phase", Word::Phase),
    ("ready", Word::Ready),
    ("not", Word::Not),
    ("free", Word::Free),
    ("kept", Word::Count(Counted::Waiting)),
    ("outstanding", Word::Count(Counted::Waiting)),
    ("incoming", Word::Count(Counted::Reverse)),
    ("asked", Word::Count(Counted::Reverse)),
    ("references", Word::Count(Counted::References)),
    ("breakpoints", Word::Count(Counted::Breakpoints)),
    ("held", Word::Count(Counted::Held)),
];

/// What a word says, if anything.
pub fn word_named(name: &str) -> Option<Word> {
    match WORDS.iter().find(|word| word.0 == name) {
        Some(word) => Some(word.1),
        None => None,
    }
}

/// The first word of a line, and what stands behind it.
pub fn parts(line: &str) -> (&str, &str) {
    match line.split_once(' ') {
        Some(parts) => parts,
        None => (line, ""),
    }
}
