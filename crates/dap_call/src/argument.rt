//! What stands at the keys of a command's arguments. `null` counts as absent.
ghost use Rattle.std.specs.Prelude.{◌≡◌, []};
ghost use Rattle.serde_json.specs.Find.{as_str};
ghost use Rattle.dap_json.specs.Lent.{lent_data};
ghost use Rattle.dap_call.specs.Argument.{Gives, value_at, required_at, optional_at, optional_or, may_be_absent, must_be_there};

use crate::call::CallFault;
use dap_command::Key;
use dap_json::property::Property;
use dap_json::{Text, field};
use serde_json::Value;
use std::alloc::{AllocError, Global};
use std::marker::Model;

impl From<AllocError> for CallFault {
    ghost use Rattle.dap_call.specs.declared.call.CallFault.TheVariants.{OutOfMemory};

    ghost from_gives = { λ _ e. e ≡ OutOfMemory };

    fn from(_e: AllocError) -> CallFault {
        CallFault::OutOfMemory
    }
}

impl From<Key> for CallFault {
    ghost use Rattle.dap_call.specs.declared.call.CallFault.TheVariants.{BadArguments};

    ghost from_gives = { λ key e. e ≡ BadArguments key };

    fn from(key: Key) -> CallFault {
        CallFault::BadArguments { key }
    }
}

/// A command's arguments: an object, or nothing. A contract sees the data.
#[derive(Drop)]
pub(crate) struct Arguments<'v> {
    object: Option<&'v Value>,
}

impl<'v> Model for Arguments<'v> {
    ghost use Rattle.std.specs.Prelude.{Option};
    ghost use Rattle.std.specs.Coded.{coded_option};
    ghost use Rattle.serde_json.specs.Data.{Data};
    ghost use Rattle.dap_json.specs.Stored.{coded_data};
    ghost use Rattle.dap_json.specs.Lent.{lent_data};

    ghost Value = { Option Data };

    ghost coded = { coded_option coded_data };

    ghost view = { λ a. lent_data a.object };
}

impl<'v> Arguments<'v> {
    /// Arguments that are an object, or absent.
    pub(crate) fn optional(given: Option<&'v Value>) -> Result<Arguments<'v>, Key>
        ensures { result ≡ may_be_absent (lent_data given.entry) }
    {
        match given {
            None | Some(Value::Null) => Ok(Arguments { object: None }),
            Some(object) if object.is_object() => Ok(Arguments {
                object: Some(object),
            }),
            Some(_) => Err(Key::Arguments),
        }
    }

    /// Arguments that are an object.
    pub(crate) fn required(given: Option<&'v Value>) -> Result<Arguments<'v>, Key>
        ensures { result ≡ must_be_there (lent_data given.entry) }
    {
        match given {
            Some(object) if object.is_object() => Ok(Arguments {
                object: Some(object),
            }),
            _ => Err(Key::Arguments),
        }
    }

    pub(crate) fn value(&self, key: Key) -> Option<&'v Value>
        ensures { lent_data result ≡ value_at key self.now }
    {
        field::present(self.object?, key.name())
    }

    pub(crate) fn at(&self, key: Key) -> Property<'v, Key>
        ensures key { result.key ≡ key }
        ensures found { lent_data result.found ≡ value_at key self.now }
    {
        let found = self.value(key);
        Property { found, key }
    }

    pub(crate) fn required_text(&self, alloc: Global, key: Key) -> Result<Text, CallFault>
        ensures { Gives result (required_at as_str key self.now) }
    {
        Ok(Text::copied(alloc, self.at(key).required_text()?)?)
    }

    pub(crate) fn optional_text(&self, alloc: Global, key: Key) -> Result<Option<Text>, CallFault>
        ensures { Gives result (optional_at as_str key self.now) }
    {
        match self.at(key).optional_text()? {
            None => Ok(None),
            Some(text) => Ok(Some(Text::copied(alloc, text)?)),
        }
    }

    pub(crate) fn text_or_empty(&self, alloc: Global, key: Key) -> Result<Text, CallFault>
        ensures { Gives result (optional_or as_str [] key self.now) }
    {
        let text = self.at(key).optional_text()?.unwrap_or("");
        Ok(Text::copied(alloc, text)?)
    }
}
