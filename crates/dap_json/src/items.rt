//! An array that stands in an object, read item by item, each as a value that is the caller's.
//!
//! Where nothing is given here, [`parse`](crate::parse) tells why.
ghost use Rattle.std.specs.Prelude.{◌≡◌, ◌<◌, length, None, IfOk, IfSome, OnOk};
ghost use Rattle.serde_json.specs.Data.{no_items, item};
ghost use Rattle.serde_json.specs.View.{view};
ghost use Rattle.dap_json.specs.Items.{IsRestOfItems, EntersItems, PassesItem};

use crate::object_reader::{MAX_DEPTH, ObjectReader};
use crate::reading;
use json::{Invalid, Token};
use serde_json::Value;
use std::alloc::Global;

impl<'a> ObjectReader<'a> {
    /// Enters the array that is the value of the key that came last. `next_item` gives its items then. It is an error where
    /// the value is no array.
    pub fn enter_items(&mut self) -> Result<(), Invalid>
        ensures entered { OnOk result (EntersItems self.old self.new) }
        ensures shorter { OnOk result (length self.new < length self.old) }
    {
        let Some(Token::BeginArray) = self.reader.next() else {
            return Err(Invalid);
        };
        Ok(())
    }

    /// The next item of the array that was entered, or `None` at its end, after which `next_key` goes on. It is also an error
    /// where memory is refused.
    pub fn next_item(&mut self, alloc: Global) -> Result<Option<Value>, Invalid>
        ensures item { IfOk result (λ r. IfSome r (λ v. PassesItem (view v) self.old self.new)) }
        ensures end { IfOk result (λ r. r ≡ None → IsRestOfItems self.old self.new no_items) }
        ensures shorter { OnOk result (length self.new < length self.old) }
    {
        if self.reader.take_end_array() {
            return Ok(None);
        }
        let Ok(value) = reading::value(alloc, &mut self.reader, self.items, MAX_DEPTH - 2) else {
            return Err(Invalid);
        };
        Ok(Some(value))
    }
}
