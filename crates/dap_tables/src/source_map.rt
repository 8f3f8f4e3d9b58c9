//! A map from sources to lists, stored as two maps.
ghost use Rattle.std.specs.Prelude.{◌≡◌, ◌<◌, ◌≤◌, [], length, OnOk, OnErr, string_bytes};
ghost use Rattle.dap_command.specs.declared.source_key.SourceKey.TheVariants.{Path, Reference};
ghost use Rattle.dap_tables.specs.SourceMap.{set_of, count, of_others, HasNoEmptyList, with_set_for};

use dap_command::SourceKey;
use std::alloc::{AllocError, Global};
use std::collections::BTreeMap;
use std::marker::Model;

/// A map from sources to lists, in which no list is empty. A path and a reference are two names, with two lists, even where
/// they mean one file. A contract sees the lists in the order of their names: paths by their bytes, then references.
#[derive(Drop)]
pub struct SourceMap<T> {
    paths: BTreeMap<String, Vec<T>>,
    references: BTreeMap<u64, Vec<T>>,
}

impl<T> Model for SourceMap<T> {
    ghost use Rattle.std.specs.Prelude.{List};
    ghost use Rattle.std.specs.BTreeMap.{IsOrdered};
    ghost use Rattle.std.specs.Ordering.{nat_cmp};
    ghost use Rattle.std.specs.String.{string_cmp};
    ghost use Rattle.dap_tables.specs.SourceMap.{OfSource, HasNoEmptyList};
    ghost use Rattle.dap_tables.specs.PrivateSourceStore.{sources_of};

    ghost Value = { List (OfSource T) };

    ghost view = { λ s. sources_of s.paths s.references };

    ghost invariant = { λ s. IsOrdered string_cmp s.paths × IsOrdered nat_cmp s.references × HasNoEmptyList (sources_of s.paths s.references) };
}

impl<T: Drop> SourceMap<T> {
    ghost use Rattle.dap_tables.specs.SourceMap.{in_place};

    /// No source has a list yet.
    pub fn new(alloc: Global) -> SourceMap<T>
        ensures { result ≡ [] }
    {
        SourceMap {
            paths: BTreeMap::new(alloc),
            references: BTreeMap::new(alloc),
        }
    }

    /// Each source that has an entry has something in its list, so that there are at most as many entries as there is in all
    /// lists together. There is nothing to run.
    pub fn no_list_is_empty(&self)
        ensures filled { HasNoEmptyList self.now }
        ensures few { length self.now ≤ count self.now }
    {
        let _ = &self.paths;
    }

    /// The list of the source with a path, empty where it has none.
    pub fn of_path(&self, path: &str) -> &[T]
        ensures { result.now ≡ set_of (Path path.now) self.now }
    {
        match self.paths.get(path) {
            None => &[],
            Some(set) => set.as_slice(),
        }
    }

    /// The list of the source with a reference, of any size, empty where it has none.
    pub fn of_reference(&self, reference: u64) -> &[T]
        ensures { result.now ≡ set_of (Reference reference) self.now }
    {
        match self.references.get(&reference) {
            None => &[],
            Some(set) => set.as_slice(),
        }
    }

    /// The list of a source, empty where it has none.
    pub fn of_source(&self, source: &SourceKey) -> &[T]
        ensures { result.now ≡ set_of source.now self.now }
    {
        match source {
            SourceKey::Path(path) => self.of_path(path.as_str()),
            SourceKey::Reference(reference) => self.of_reference(*reference as u64),
        }
    }

    fn put_path(&mut self, path: String, set: Vec<T>) -> Result<(), AllocError>
        requires { 0 < length set.items }
        ensures put { OnOk result (self.new ≡ in_place (record { source = Path (string_bytes path); set = set.items }) (of_others (Path (string_bytes path)) self.old)) }
        ensures err { OnErr result (self.new ≡ self.old) }
    {
        self.paths.insert(path, set)?;
        Ok(())
    }

    fn put_reference(&mut self, reference: u64, set: Vec<T>) -> Result<(), AllocError>
        requires { 0 < length set.items }
        ensures put { OnOk result (self.new ≡ in_place (record { source = Reference reference; set = set.items }) (of_others (Reference reference) self.old)) }
        ensures err { OnErr result (self.new ≡ self.old) }
    {
        self.references.insert(reference, set)?;
        Ok(())
    }

    fn put_some(&mut self, source: SourceKey, set: Vec<T>) -> Result<(), AllocError>
        requires { 0 < length set.items }
        ensures put { OnOk result (self.new ≡ in_place (record { source = source; set = set.items }) (of_others source self.old)) }
        ensures err { OnErr result (self.new ≡ self.old) }
    {
        match source {
            SourceKey::Path(path) => self.put_path(path.into_string()?, set),
            SourceKey::Reference(reference) => self.put_reference(reference as u64, set),
        }
    }

    /// Puts a list in place of the one that a source has. An empty one leaves the source without a list, and takes no memory.
    ///
    /// # Errors
    /// `AllocError` where memory is refused. The map is then as it was.
    pub fn put(&mut self, source: SourceKey, set: Vec<T>) -> Result<(), AllocError>
        ensures put { OnOk result (self.new ≡ with_set_for source set.items self.old) }
        ensures err { OnErr result (self.new ≡ self.old) }
        ensures memory { OnErr result (0 < length set.items) }
    {
        if set.is_empty() {
            self.remove(&source);
            return Ok(());
        }
        self.put_some(source, set)
    }

    fn remove_path(&mut self, path: &str)
        ensures { self.new ≡ of_others (Path path.now) self.old }
    {
        self.paths.remove(path);
    }

    fn remove_reference(&mut self, reference: u64)
        ensures { self.new ≡ of_others (Reference reference) self.old }
    {
        self.references.remove(&reference);
    }

    /// Leaves a source without a list.
    pub fn remove(&mut self, source: &SourceKey)
        ensures { self.new ≡ of_others source.now self.old }
    {
        match source {
            SourceKey::Path(path) => self.remove_path(path.as_str()),
            SourceKey::Reference(reference) => self.remove_reference(*reference as u64),
        }
    }
}
