//! The references that a body gives, gathered from its text with no tree.
//!
//! They are those that `frames_given` and `holders_given` give over the body's tree. Which of them count depends on the
//! command of the response, which may stand after the body in the text. So those of all commands are gathered, from the
//! members that [`GivenObjects`] names. Where a body is odd nothing is told, and its tree has to be looked at.
ghost use Rattle.std.specs.Prelude.{◌≡◌, ◌≤◌, length, OnOk};
ghost use Rattle.serde_json.specs.Data.{Data, Items, Members, null, array, object, no_members, put};
ghost use Rattle.dap_json.specs.Inside.{IsNextInside, IsRestInside, numbers_in};
ghost use Rattle.dap_json.specs.ObjectReader.{IsNext};
ghost use Rattle.dap_command.specs.Gathered.{gathered, AreGivenBy};
ghost use Rattle.dap_command.specs.Objects.{number_key_of, least_of};

use crate::objects::GivenObjects;
use dap_json::object_reader::{Invalid, ObjectReader};
use std::alloc::Global;

/// The references that a body gives. It keeps its memory from body to body.
#[derive(Drop)]
pub struct GatheredReferences {
    pub frames: Vec<u64>,
    pub scopes: Vec<u64>,
    pub variables: Vec<u64>,
    /// That of a value.
    pub own: Vec<u64>,
}

/// Takes the list of such objects, and keeps their numbers in place of those before.
fn take_list(
    object_reader: &mut ObjectReader<'_>,
    objects: GivenObjects,
    numbers: &mut Vec<u64>,
) -> Result<(), Invalid>
    ensures { OnOk result ((ds : Items) × IsNextInside (array ds) object_reader.old object_reader.new × (numbers.new.items ≡ numbers_in (number_key_of objects) (least_of objects) 2147483647 ds)) }
{
    numbers.clear();
    object_reader.column(objects.number_key(), objects.range(), numbers)
}

impl GatheredReferences {
    pub fn new(alloc: Global) -> GatheredReferences
        ensures { AreGivenBy result null }
    {
        GatheredReferences {
            frames: Vec::new(alloc),
            scopes: Vec::new(alloc),
            variables: Vec::new(alloc),
            own: Vec::new(alloc),
        }
    }

    /// Forgets all.
    pub fn clear(&mut self)
        ensures { AreGivenBy self.new null }
    {
        self.frames.clear();
        self.scopes.clear();
        self.variables.clear();
        self.own.clear();
    }

    /// Takes the value of an inner key.
    fn take_member(
        &mut self,
        key: &str,
        object_reader: &mut ObjectReader<'_>,
    ) -> Result<(), Invalid>
        ensures { OnOk result ((d : Data) × IsNextInside d object_reader.old object_reader.new × ((found : Members) → AreGivenBy self.old (object found) → AreGivenBy self.new (object (put key.now d found)))) }
    {
        match GivenObjects::at_member(key) {
            GivenObjects::Nothing => {
                let _ = object_reader.pass_inner()?;
            }
            GivenObjects::Frames => {
                take_list(object_reader, GivenObjects::Frames, &mut self.frames)?
            }
            GivenObjects::Scopes => {
                take_list(object_reader, GivenObjects::Scopes, &mut self.scopes)?
            }
            GivenObjects::Variables => {
                take_list(object_reader, GivenObjects::Variables, &mut self.variables)?
            }
            GivenObjects::Value => {
                self.own.clear();
                object_reader.number(GivenObjects::Value.range(), &mut self.own)?;
            }
        }
        Ok(())
    }

    /// Takes the members of the body that was entered, and its end.
    fn take_members(&mut self, object_reader: &mut ObjectReader<'_>) -> Result<(), Invalid>
        requires { AreGivenBy self.old (object no_members) }
        ensures members { OnOk result ((ms : Members) × IsRestInside object_reader.old object_reader.new no_members ms × AreGivenBy self.new (object ms)) }
        ensures shorter { OnOk result (length object_reader.new ≤ length object_reader.old) }
    {
        while let Some(key) = object_reader.inner_key()? {
            self.take_member(key, object_reader)?;
        }
        Ok(())
    }

    /// Passes the body that comes next, and gathers what it gives in place of what was gathered before. It is an error where
    /// the body is no object, where what should be an array of objects is none, where its text is no JSON, and where memory
    /// is refused; what is gathered then is not told.
    pub fn gather(&mut self, object_reader: &mut ObjectReader<'_>) -> Result<(), Invalid>
        ensures { OnOk result ((body : Data) × IsNext body object_reader.old object_reader.new × AreGivenBy self.new body) }
    {
        self.clear();
        object_reader.enter()?;
        self.take_members(object_reader)?;
        Ok(())
    }

    /// The numbers of such objects.
    pub fn numbers(&self, objects: GivenObjects) -> &[u64]
        ensures { result.now ≡ gathered objects self.now }
    {
        match objects {
            GivenObjects::Nothing => &[],
            GivenObjects::Frames => self.frames.as_slice(),
            GivenObjects::Scopes => self.scopes.as_slice(),
            GivenObjects::Variables => self.variables.as_slice(),
            GivenObjects::Value => self.own.as_slice(),
        }
    }
}
