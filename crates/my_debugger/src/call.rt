//! A program that runs: the calls that have not returned, with their variables, and what one instruction does to them.

use crate::news::News;
use crate::program::{Instruction, LINES};
use crate::queries;
use dap_json::Text;
use std::alloc::{AllocError, Global};
use std::marker::Model;

/// How many calls there are at most.
const MOST_CALLS: usize = 64;

/// A variable.
#[derive(Drop)]
pub(crate) struct Local {
    pub(crate) name: Text,
    pub(crate) value: u32,
}

/// The variables of a call, in the order in which they were set first. A contract sees the list.
#[derive(Drop)]
pub(crate) struct Locals {
    items: Vec<Local>,
}

impl Model for Locals {
    ghost use Rattle.std.specs.Prelude.{List};
    ghost use Rattle.my_debugger.specs.declared.call.Local.{Local};

    ghost Value = { List Local };

    ghost view = { λ l. l.items.items };
}

impl Locals {
    ghost use Rattle.std.specs.Prelude.{◌≡◌};

    pub(crate) fn as_slice(&self) -> &[Local]
        ensures { result.now ≡ self.now }
    {
        self.items.as_slice()
    }

    /// The value of a variable, 0 where it was not set.
    fn value(&self, name: &str) -> u32 {
        match queries::named(self.as_slice(), name) {
            None => 0,
            Some(local) => local.value,
        }
    }

    fn set(&mut self, alloc: Global, name: &str, value: u32) -> Result<(), AllocError> {
        for local in self.items.iter_mut() {
            if local.name.as_str() == name {
                local.value = value;
                return Ok(());
            }
        }
        let name = Text::copied(alloc, name)?;
        self.items.push(Local { name, value })?;
        Ok(())
    }
}

/// A call that has not returned.
#[derive(Drop)]
pub(crate) struct Call {
    /// The name of its function.
    pub(crate) name: Text,
    /// The index of the instruction that it is at, from 0.
    pub(crate) at: u32,
    pub(crate) locals: Locals,
}

impl Call {
    /// Goes on to the next instruction.
    fn advance(&mut self) {
        self.at = self.at.saturating_add(1);
    }

    /// Does what an instruction says that calls nothing and does not return.
    fn execute(&mut self, alloc: Global, instruction: Instruction) -> Result<News, AllocError> {
        self.advance();
        match instruction {
            Instruction::Set(name, value) => self.locals.set(alloc, name, value)?,
            Instruction::Add(to, name) => {
                let sum = self.locals.value(to).wrapping_add(self.locals.value(name));
                self.locals.set(alloc, to, sum)?;
            }
            Instruction::Print(name) => return Ok(News::Printed(self.locals.value(name))),
            Instruction::Call(..) | Instruction::Return => {}
        }
        Ok(News::Nothing)
    }
}

/// Calls a function that begins at an instruction, by its index from 0.
pub(crate) fn enter(
    alloc: Global,
    stack: &mut Vec<Call>,
    name: &str,
    at: u32,
) -> Result<News, AllocError> {
    if stack.len() >= MOST_CALLS {
        return Ok(News::TooDeep);
    }
    let locals = Locals {
        items: Vec::new(alloc),
    };
    let name = Text::copied(alloc, name)?;
    stack.insert(0, Call { name, at, locals })?;
    Ok(News::Nothing)
}

/// Goes back behind the call, or ends the program.
fn leave(stack: &mut Vec<Call>) -> News {
    if stack.len() <= 1 {
        return News::Finished;
    }
    let call = stack.remove(0);
    drop(call);
    if let Some(caller) = stack.first_mut() {
        caller.advance();
    }
    News::Nothing
}

/// Runs the instruction that the newest call is at. Behind the last line it returns.
pub(crate) fn step(alloc: Global, stack: &mut Vec<Call>) -> Result<News, AllocError> {
    let Some(call) = stack.first_mut() else {
        return Ok(News::Finished);
    };
    match LINES.get(call.at as usize) {
        None | Some(Instruction::Return) => Ok(leave(stack)),
        Some(Instruction::Call(name, line)) => enter(alloc, stack, name, line.saturating_sub(1)),
        Some(instruction) => call.execute(alloc, *instruction),
    }
}
