//! Lists of variables, and those of each holder by its number.
ghost use Rattle.std.specs.Prelude.{◌≡◌, IfOk, option_map};
ghost use Rattle.dap_debuggee.specs.Laws.{variable_named, with_assigned as with_assigned_in};
ghost use Rattle.dap_debuggee.specs.Shown.{window as window_of};
ghost use Rattle.dap_recording.specs.Variables.{assigned_to as assigned_to_value, evaluation as evaluation_of};

use dap_debuggee::{Assigned, Evaluation, Variable};
use dap_json::{More, Text};
use std::alloc::{AllocError, Global};
use std::collections::BTreeMap;
use std::marker::Model;

/// The first variable with a name.
pub fn named<'v>(variables: &'v [Variable], name: &str) -> Option<&'v Variable>
    ensures { option_map (λ v. v.now) result ≡ variable_named name.now variables.now }
{
    for variable in variables {
        if name == variable.name.as_str() {
            return Some(variable);
        }
    }
    None
}

/// From the place `start` on, at most `count` elements where `count` is above 0.
pub fn window(variables: &[Variable], start: usize, count: usize) -> &[Variable]
    ensures { result.now ≡ window_of start count variables.now }
{
    let (_, rest) = variables.split_at(start.min(variables.len()));
    if count == 0 {
        return rest;
    }
    let (part, _) = rest.split_at(count.min(rest.len()));
    part
}

/// The same variables, each with texts that it shares with the other.
pub fn copied(alloc: Global, variables: &[Variable]) -> Result<Vec<Variable>, AllocError>
    ensures { IfOk result (λ copy. copy.items ≡ variables.now) }
{
    let mut copy = Vec::with_capacity(alloc, variables.len())?;
    for original in variables {
        copy.push(Variable {
            name: original.name.clone()?,
            value: original.value.clone()?,
            holder: original.holder,
            more: original.more.clone()?,
        })?;
    }
    Ok(copy)
}

/// What a text comes to that comes to a variable.
pub fn evaluation(variable: &Variable) -> Result<Evaluation, AllocError>
    ensures { IfOk result (λ value. value ≡ evaluation_of variable.now) }
{
    Ok(Evaluation {
        value: variable.value.clone()?,
        holder: variable.holder,
        more: variable.more.clone()?,
    })
}

/// A variable's value, once it is this one. What is said beside it stays, unless this is said.
pub fn assigned_to(
    variable: &Variable,
    value: Text,
    said: Option<More>,
) -> Result<Assigned, AllocError>
    ensures { IfOk result (λ assigned. assigned ≡ assigned_to_value value said variable.now) }
{
    let more = match said {
        Some(more) => more,
        None => variable.more.clone()?,
    };
    Ok(Assigned { value, more })
}

/// The same variables, the first of which with a name has a value, and what is said beside it.
pub fn with_assigned(
    alloc: Global,
    variables: &[Variable],
    name: &str,
    assigned: &Assigned,
) -> Result<Vec<Variable>, AllocError>
    ensures { IfOk result (λ v. v.items ≡ with_assigned_in name.now assigned.now variables.now) }
{
    let mut changed = Vec::with_capacity(alloc, variables.len())?;
    let mut is_set = false;
    for variable in variables {
        let is_it = !is_set && name == variable.name.as_str();
        let (value, more) = if is_it {
            (&assigned.value, &assigned.more)
        } else {
            (&variable.value, &variable.more)
        };
        changed.push(Variable {
            name: variable.name.clone()?,
            value: value.clone()?,
            holder: variable.holder,
            more: more.clone()?,
        })?;
        is_set = is_set || is_it;
    }
    Ok(changed)
}

/// The variables of each of some holders, by the holder's number. A contract sees them in the order of the numbers.
#[derive(Drop)]
pub struct HolderMap {
    lists: BTreeMap<u64, Vec<Variable>>,
}

impl Model for HolderMap {
    ghost use Rattle.std.specs.Coded.{codes};
    ghost use Rattle.dap_json.specs.Stored.{coded_data};
    ghost use Rattle.std.specs.Prelude.{List};
    ghost use Rattle.dap_recording.specs.Variables.{OfHolder};
    ghost use Rattle.dap_recording.specs.PrivateHolders.{entries_of};

    ghost Value = { List OfHolder };

    ghost coded = { Prim.hlevel (codes, coded_data) };

    ghost view = { λ m. entries_of m.lists };
}

impl HolderMap {
    ghost use Rattle.std.specs.Prelude.{◌≡◌, [], length, option_map, OnOk, OnErr};
    ghost use Rattle.dap_recording.specs.Variables.{variables_at, with_variables};

    /// No holder has variables here.
    pub fn new(alloc: Global) -> HolderMap
        ensures { result ≡ [] }
    {
        HolderMap {
            lists: BTreeMap::new(alloc),
        }
    }

    /// How many holders have variables here.
    pub fn len(&self) -> usize
        ensures { result ≡ length self.now }
    {
        self.lists.len()
    }

    /// The variables of a holder.
    pub fn get(&self, holder: u64) -> Option<&[Variable]>
        ensures { option_map (λ v. v.now) result ≡ variables_at holder self.now }
    {
        match self.lists.get(&holder) {
            None => None,
            Some(variables) => Some(variables.as_slice()),
        }
    }

    /// Puts variables in place of those that a holder has.
    ///
    /// # Errors
    /// `AllocError` where memory is refused. All is then as it was.
    pub fn put(&mut self, holder: u64, variables: Vec<Variable>) -> Result<(), AllocError>
        ensures put { OnOk result (self.new ≡ with_variables holder variables.items self.old) }
        ensures memory { OnErr result (self.new ≡ self.old) }
    {
        self.lists.insert(holder, variables)?;
        Ok(())
    }

    /// Leaves no holder with variables.
    pub fn clear(&mut self)
        ensures { self.new ≡ [] }
    {
        self.lists.clear();
    }
}
