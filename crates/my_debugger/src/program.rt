//! What is debugged: a program of a few instructions, one a line.

/// What one line does.
#[derive(Clone, Copy)]
pub(crate) enum Instruction {
    /// Sets a variable.
    Set(&'static str, u32),
    /// Adds to a variable the value of another.
    Add(&'static str, &'static str),
    /// Prints a variable.
    Print(&'static str),
    /// Calls a function by its name and its first line, counted from 1.
    Call(&'static str, u32),
    /// Goes back to the caller, or ends the program.
    Return,
}

/// The file name of the source.
pub(crate) const NAME: &str = "sample.toy";

/// The path of the source, by which a client names it.
pub(crate) const PATH: &str = "/toy/sample.toy";

/// Why it does not go back.
pub(crate) const NO_WAY_BACK: &str = "There is no way back.";

/// Why a text that is no variable of a frame has no value.
pub(crate) const NO_VARIABLE: &str = "There is no variable of that name.";

/// The source.
pub(crate) const TEXT: &str = "set a 2
set b 3
add a b
print a
call double 9
set b 4
print b
return
set x 20
add x x
print x
return
";

/// Its lines.
pub(crate) static LINES: [Instruction; 12] = [
    Instruction::Set("a", 2),
    Instruction::Set("b", 3),
    Instruction::Add("a", "b"),
    Instruction::Print("a"),
    Instruction::Call("double", 9),
    Instruction::Set("b", 4),
    Instruction::Print("b"),
    Instruction::Return,
    Instruction::Set("x", 20),
    Instruction::Add("x", "x"),
    Instruction::Print("x"),
    Instruction::Return,
];
