//! What stands at a key of an object, as it has to be, or the key where it is not so.
ghost use Rattle.std.specs.Prelude.{◌≡◌, option_map};
ghost use Rattle.serde_json.specs.Find.{as_str, as_bool, as_array};
ghost use Rattle.serde_json.specs.View.{items_view};
ghost use Rattle.dap_json.specs.Field.{object_of};
ghost use Rattle.dap_json.specs.Lent.{lent_data};
ghost use Rattle.dap_json.specs.Numbers.{int_of, number_of, seq_of};
ghost use Rattle.dap_json.specs.Property.{ok_map, required, in_shape, text_result, shape_test, lent_shape_or};

use crate::numbers;
use serde_json::Value;

/// What was found at a key, and the key. Each reader gives what is asked for, or the key.
#[derive(Clone, Copy)]
pub struct Property<'v, K> {
    /// `None` where it counts as absent.
    pub found: Option<&'v Value>,
    pub key: K,
}

impl<'v, K: Copy + Drop> Property<'v, K> {
    /// A whole number of -9007199254740991 to 9007199254740991.
    pub fn required_int(self) -> Result<i64, K>
        ensures { result ≡ required int_of self.entry.key (lent_data self.entry.found) }
    {
        self.found.and_then(numbers::int).ok_or(self.key)
    }

    /// A whole number of 0 to 2147483647.
    pub fn required_number(self) -> Result<u32, K>
        ensures { result ≡ required number_of self.entry.key (lent_data self.entry.found) }
    {
        self.found.and_then(numbers::number).ok_or(self.key)
    }

    pub fn required_text(self) -> Result<&'v str, K>
        ensures { text_result result ≡ required as_str self.entry.key (lent_data self.entry.found) }
    {
        self.found.and_then(Value::as_str).ok_or(self.key)
    }

    pub fn required_flag(self) -> Result<bool, K>
        ensures { result ≡ required as_bool self.entry.key (lent_data self.entry.found) }
    {
        self.found.and_then(Value::as_bool).ok_or(self.key)
    }

    /// The elements of an array.
    pub fn required_items(self) -> Result<&'v [Value], K>
        ensures { ok_map (λ items. items_view items.now) result
            ≡ required as_array self.entry.key (lent_data self.entry.found) }
    {
        match self.found.and_then(Value::as_array) {
            None => Err(self.key),
            Some(items) => Ok(items.as_slice()),
        }
    }

    pub fn optional_text(self) -> Result<Option<&'v str>, K>
        ensures { ok_map (option_map (λ text. text.now)) result
            ≡ in_shape as_str self.entry.key (lent_data self.entry.found) }
    {
        match self.found {
            None => Ok(None),
            Some(value) => Ok(Some(value.as_str().ok_or(self.key)?)),
        }
    }

    /// A whole number of 0 to 2147483647, which may be absent.
    pub fn optional_number(self) -> Result<Option<u32>, K>
        ensures { result ≡ in_shape number_of self.entry.key (lent_data self.entry.found) }
    {
        match self.found {
            None => Ok(None),
            Some(value) => Ok(Some(numbers::number(value).ok_or(self.key)?)),
        }
    }

    /// A whole number of 0 to 9007199254740991, which may be absent.
    pub fn optional_whole(self) -> Result<Option<u64>, K>
        ensures { result ≡ in_shape seq_of self.entry.key (lent_data self.entry.found) }
    {
        match self.found {
            None => Ok(None),
            Some(value) => Ok(Some(numbers::whole(value).ok_or(self.key)?)),
        }
    }

    /// A whole number of 0 to 2147483647, or what counts where it is absent.
    pub fn number_or(self, default: u32) -> Result<u32, K>
        ensures { result ≡ lent_shape_or number_of default self.entry.key self.entry.found }
    {
        match self.found {
            None => Ok(default),
            Some(value) => numbers::number(value).ok_or(self.key),
        }
    }

    pub fn flag_or(self, default: bool) -> Result<bool, K>
        ensures { result ≡ lent_shape_or as_bool default self.entry.key self.entry.found }
    {
        match self.found {
            None => Ok(default),
            Some(value) => value.as_bool().ok_or(self.key),
        }
    }

    /// Refuses what is there, but is no object.
    pub fn test_object(self) -> Result<(), K>
        ensures { result ≡ shape_test object_of self.entry.key (lent_data self.entry.found) }
    {
        match self.found {
            Some(value) if !value.is_object() => Err(self.key),
            _ => Ok(()),
        }
    }
}
