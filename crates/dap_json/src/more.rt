//! Members that stand beside others in an object, whatever those are.
ghost use Rattle.std.specs.Prelude.{◌≡◌, OnOk, ◌++◌, IsTrue, Some, None};
ghost use Rattle.serde_json.specs.View.{members_view};
ghost use Rattle.dap_json.specs.More.{members_in};

use crate::plain::is_plain;
use crate::text::Text;
use crate::tree::Tree;
use serde_json::{Map, Value};
use std::alloc::{AllocError, Global};
use std::marker::Model;
use std::sync::Arc;

/// How deep an object may nest whose members stand beside others.
pub const MORE_NESTING: usize = 100;

/// A member of an object.
#[derive(Debug, Drop)]
pub struct Member {
    pub key: Text,
    pub value: Tree,
}

/// Members that can stand beside others: in the byte order of their keys, none of these twice, without floats, and nested at most
/// 100 deep with the object that has them. A contract sees the list. A copy takes no memory.
#[derive(Debug, Drop)]
pub struct More {
    /// None where there are no members.
    held: Option<Arc<Vec<Member>>>,
}

impl Model for More {
    ghost use Rattle.std.specs.Prelude.{List};
    ghost use Rattle.std.specs.Coded.{codes};
    ghost use Rattle.dap_json.specs.More.{IsMore};
    ghost use Rattle.dap_json.specs.Stored.{coded_data};
    ghost use Rattle.dap_json.specs.PrivateMore.{members_held};
    ghost use Rattle.dap_json.specs.declared.more.Member.{Member};

    ghost Value = { List Member };

    ghost coded = { Prim.hlevel (codes, coded_data) };

    ghost view = { λ m. members_held m.held };

    ghost invariant = { λ m. IsMore (members_held m.held) };
}

/// The members of a map, in their order.
fn push_members(
    alloc: Global,
    members: &mut Vec<Member>,
    map: &Map<String, Value>,
) -> Result<(), AllocError>
    ensures { OnOk result (members.new.items ≡ members.old.items ++ members_in (members_view map.now.entries)) }
{
    for (key, value) in map.iter() {
        members.push(Member {
            key: Text::copied(alloc, key.as_str())?,
            value: Tree::shared(alloc, value.clone()?),
        })?;
    }
    Ok(())
}

impl More {
    ghost use Rattle.std.specs.Prelude.{◌≡◌, [], ◌∷◌, IfOk, IsTrue};
    ghost use Rattle.serde_json.specs.Data.{string};
    ghost use Rattle.serde_json.specs.View.{view};
    ghost use Rattle.dap_json.specs.More.{IsMore, more_of};

    /// There are none.
    #[inline(always)]
    pub fn none() -> More
        ensures { result ≡ [] }
    {
        More { held: None }
    }

    /// One member, which is a text, such as the `type` of a variable.
    pub fn text(alloc: Global, key: &str, value: &str) -> Result<More, AllocError>
        ensures { IfOk result (λ more. more ≡ record { key = key.now; value = string value.now } ∷ []) }
    {
        let mut members = Vec::with_capacity(alloc, 1)?;
        members.push(Member {
            key: Text::copied(alloc, key)?,
            value: Tree::shared(alloc, Value::try_from_str(alloc, value)?),
        })?;
        Ok(More {
            held: Some(Arc::new(alloc, members)?),
        })
    }

    /// The members of an object; `None` where a value is no object, or its members cannot stand beside others: there is a float
    /// among them, or they nest too deep.
    pub fn of(alloc: Global, value: &Value) -> Result<Option<More>, AllocError>
        ensures { IfOk result (λ more. more ≡ more_of (view value.now)) }
    {
        let Value::Object(map) = value else {
            return Ok(None);
        };
        if map.is_empty() {
            return Ok(Some(More::none()));
        }
        if !is_plain(value, MORE_NESTING) {
            return Ok(None);
        }
        let mut members = Vec::new(alloc);
        push_members(alloc, &mut members, map)?;
        Ok(Some(More {
            held: Some(Arc::new(alloc, members)?),
        }))
    }

    /// The members, lent.
    #[inline(always)]
    pub fn as_slice(&self) -> &[Member]
        ensures { result.now ≡ self.now }
    {
        match &self.held {
            None => &[],
            Some(held) => held.as_slice(),
        }
    }

    /// What holds of them. There is nothing to run.
    #[inline(always)]
    pub fn more_is_fit(&self)
        ensures { IsMore self.now }
    {
        let _ = &self.held;
    }
}

impl Clone for More {
    ghost is_clone = { λ a b. b ≡ a };

    #[inline(always)]
    fn clone(&self) -> Result<More, AllocError> {
        let held = match &self.held {
            None => None,
            Some(held) => Some(held.clone()?),
        };
        Ok(More { held })
    }
}
