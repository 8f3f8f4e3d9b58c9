//! What answers to queries are made with, beside the debuggee.
ghost use Rattle.std.specs.Prelude.{◌≡◌, ◌≤◌, length, IfOk, IsOk};
ghost use Rattle.std.specs.Option.{option_copied};
ghost use Rattle.dap_query.specs.Queries.{fresh_queries, object_of, with_no_references};
ghost use Rattle.dap_tables.specs.References.{back_to, target_of};

use crate::options::Options;
use dap_frame::Limits;
use dap_tables::{Mark, References, Target};
use std::alloc::{AllocError, Global};
use std::marker::Model;

/// What answers to queries are made with, beside the debuggee: the limits of the adapter, what the client said of itself,
/// and the references that are live.
#[derive(Drop)]
pub struct Queries {
    pub(crate) limits: Limits,
    pub(crate) options: Options,
    pub(crate) references: References,
}

impl Model for Queries {
    ghost use Rattle.dap_query.specs.Queries.{QueryState, AreQueries};

    ghost Value = { QueryState };

    ghost view = { λ q. record { limits = q.limits; options = q.options; references = q.references.references } };

    ghost invariant = { λ q. AreQueries q.limits q.references };
}

impl Queries {
    /// No references yet, and the usual options. It takes no memory, so that it never fails.
    pub fn open(alloc: Global, limits: Limits) -> Result<Queries, AllocError>
        ensures fresh { IfOk result (λ queries. queries ≡ fresh_queries limits) }
        ensures memory { IsOk result }
    {
        let references = References::open(alloc, limits.references(), limits.reference())?;
        Ok(Queries {
            limits,
            options: Options {
                lines_start_at_1: true,
                columns_start_at_1: true,
                supports_variable_paging: false,
                supports_run_in_terminal_request: false,
            },
            references,
        })
    }

    pub fn limits(&self) -> Limits
        ensures { result ≡ self.now.limits }
    {
        self.limits
    }

    pub fn options(&self) -> Options
        ensures { result ≡ self.now.options }
    {
        self.options
    }

    pub fn set_options(&mut self, options: Options)
        ensures { self.new ≡ record self.old { options = options } }
    {
        self.options = options;
    }

    // ---- references

    /// How many references are live.
    pub fn len(&self) -> usize
        ensures live { result ≡ length self.now.references.live }
        ensures bound { result ≤ self.now.limits.references }
    {
        self.references.len()
    }

    /// All references die.
    pub fn clear(&mut self)
        ensures { self.new ≡ with_no_references self.old }
    {
        self.references.clear();
    }

    /// What a number names, where it is live.
    pub fn target(&self, number: u32) -> Option<&Target>
        ensures { option_copied result ≡ target_of self.now.references number }
    {
        self.references.target(number)
    }

    /// The object of a live number.
    pub fn object(&self, number: u32) -> Option<u64>
        ensures { result ≡ object_of self.now.references number }
    {
        match self.references.target(number) {
            None => None,
            Some(target) => Some(target.object),
        }
    }

    /// How many references are live now, to go back to.
    pub fn mark(&self) -> Mark
        ensures { result ≡ length self.now.references.live }
    {
        self.references.mark()
    }

    /// Takes back the numbers that were given since a mark.
    pub fn back_to(&mut self, mark: Mark)
        requires { mark ≤ length self.old.references.live }
        ensures { self.new ≡ record self.old { references = back_to mark self.old.references } }
    {
        self.references.back_to(mark);
    }
}
