//! Numbers for the objects that an answer names.
ghost use Rattle.std.specs.Prelude.{◌≡◌};
ghost use Rattle.dap_query.specs.References.{number_of, intern_each};
ghost use Rattle.dap_query.specs.QueryResults.{Gives, OnlyGives};

use crate::no_answer::NoAnswer;
use crate::queries::Queries;
use dap_body::Failure;
use dap_tables::{RefFault, Target};
use std::alloc::Global;

impl Queries {
    /// The number of an object, 0 where there is none.
    pub(crate) fn number(&mut self, object: Option<Target>) -> Result<u32, NoAnswer>
        ensures given { Gives (λ n. (n, self.new.references)) result (number_of self.old.limits object self.old.references) }
        ensures only { OnlyGives self.old self.new }
    {
        let Some(target) = object else {
            return Ok(0);
        };
        match self.references.intern(target) {
            Ok(number) => Ok(number),
            Err(RefFault::Full) => Err(NoAnswer::Fails(Failure::TooManyReferences)),
            Err(RefFault::Exhausted) => Err(NoAnswer::Fails(Failure::ReferencesExhausted)),
            Err(RefFault::OutOfMemory) => Err(NoAnswer::OutOfMemory),
        }
    }

    /// The numbers of these objects, in order. Where one has none, those before it stay given.
    pub(crate) fn number_each(
        &mut self,
        alloc: Global,
        objects: &[Option<Target>],
    ) -> Result<Vec<u32>, NoAnswer>
        ensures given { Gives (λ ns. (ns.items, self.new.references)) result (intern_each self.old.limits objects.now self.old.references) }
        ensures only { OnlyGives self.old self.new }
    {
        let mut numbers = Vec::with_capacity(alloc, objects.len())?;
        for object in objects {
            let number = self.number(*object)?;
            if numbers.push(number).is_err() {
                return Err(NoAnswer::OutOfMemory);
            }
        }
        Ok(numbers)
    }
}
