//! Keys by arrival.
ghost use Rattle.std.specs.Prelude.{◌≡◌, ◌≢◌, ◌+◌, ◌-◌, ◌<◌, ◌≤◌, [], ◌∷◌, ◌++◌, length, IfOk, IfSome, OnErr, Some, vec_len};
ghost use Rattle.dap_tables.specs.Arrivals.{IsIn, without_key, keys_from, key_at, next_of, prev_of, Skips, Splices};

use std::alloc::{AllocError, Global};
use std::marker::Model;

/// Keys in the order in which they came, no two the same. A key that leaves is not sought: each is linked to the one before
/// it and to the one after it.
///
/// Only `open` takes memory.
#[derive(Debug, Drop)]
pub(crate) struct Arrivals {
    // A ring: the link of a key is at the place after it, and at place 0 is the head, which stands before the first key and
    // after the last. There is no place at all where there is room for no key.
    links: Vec<Link>,
    len: usize,
}

#[derive(Clone, Copy, Debug)]
struct Link {
    prev: usize,
    next: usize,
}

impl Model for Arrivals {
    ghost use Rattle.dap_tables.specs.Arrivals.{Order, order_of, IsSoundRing};

    ghost Value = { Order };

    ghost view = { λ a. order_of a.links.items a.len };

    ghost invariant = { λ a. IsSoundRing a.links.items a.len };
}

// The links of a ring of no key, with places for the head and the keys below a limit.
fn ring(alloc: Global, limit: usize) -> Result<Vec<Link>, AllocError>
    ensures next { IfOk result (λ links. next_of links.items 0 ≡ 0) }
    ensures prev { IfOk result (λ links. prev_of links.items 0 ≡ 0) }
    ensures len { IfOk result (λ links. length links.items - 1 ≡ limit) }
    ensures memory { OnErr result (0 < limit) }
{
    let mut links = Vec::new(alloc);
    if limit == 0 {
        return Ok(links);
    }
    let places = limit.checked_add(1).ok_or(AllocError)?;
    links.resize(places, Link { prev: 0, next: 0 })?;
    Ok(links)
}

// Leads the head to itself.
fn close(links: &mut Vec<Link>)
    ensures next { next_of links.new.items 0 ≡ 0 }
    ensures prev { prev_of links.new.items 0 ≡ 0 }
    ensures len { vec_len links.new ≡ vec_len links.old }
{
    if !links.is_empty() {
        links[0] = Link { prev: 0, next: 0 };
    }
}

// Joins the two neighbours of a place.
fn skip(links: &mut Vec<Link>, at: usize)
    requires at_in { at < vec_len links.old }
    requires prev_in { prev_of links.old.items at < vec_len links.old }
    requires next_in { next_of links.old.items at < vec_len links.old }
    ensures skips { Skips links.old.items links.new.items at }
    ensures len { vec_len links.new ≡ vec_len links.old }
{
    let Link { prev, next } = links[at];
    links[prev].next = next;
    links[next].prev = prev;
}

// Puts a place just before another.
fn splice(links: &mut Vec<Link>, at: usize, next: usize)
    requires at_in { at < vec_len links.old }
    requires next_in { next < vec_len links.old }
    requires prev_in { prev_of links.old.items next < vec_len links.old }
    requires not_next { at ≢ next }
    requires not_prev { at ≢ prev_of links.old.items next }
    ensures splices { Splices links.old.items links.new.items at next }
    ensures len { vec_len links.new ≡ vec_len links.old }
{
    let prev = links[next].prev;
    links[at] = Link { prev, next };
    links[prev].next = at;
    links[next].prev = at;
}

// The key whose link is at a place; none at the head.
fn key_at(place: usize) -> Option<usize>
    ensures { result ≡ key_at place }
{
    place.checked_sub(1)
}

impl Arrivals {
    /// No key yet, and room for the keys below `limit`.
    pub(crate) fn open(alloc: Global, limit: usize) -> Result<Arrivals, AllocError>
        ensures empty { IfOk result (λ order. order ≡ record { limit = limit; keys = [] }) }
        ensures memory { OnErr result (0 < limit) }
    {
        Ok(Arrivals {
            links: ring(alloc, limit)?,
            len: 0,
        })
    }

    /// The key that came first.
    pub(crate) fn first(&self) -> Option<usize>
        ensures first { keys_from result self.now.keys ≡ self.now.keys }
        ensures among { IfSome result (λ key. IsIn key self.now.keys) }
    {
        match self.links.get(0) {
            Some(head) => key_at(head.next),
            None => None,
        }
    }

    /// The key that came after one.
    pub(crate) fn after(&self, key: usize) -> Option<usize>
        requires { IsIn key self.now.keys }
        ensures after { keys_from (Some key) self.now.keys ≡ key ∷ keys_from result self.now.keys }
        ensures among { IfSome result (λ later. IsIn later self.now.keys) }
    {
        key_at(self.links[key + 1].next)
    }

    /// Puts a new key last.
    pub(crate) fn push(&mut self, key: usize)
        requires within { key < self.old.limit }
        requires room { length self.old.keys < self.old.limit }
        requires new { ¬ IsIn key self.old.keys }
        ensures { self.new ≡ record self.old { keys = self.old.keys ++ key ∷ [] } }
    {
        splice(&mut self.links, key + 1, 0);
        self.len += 1;
    }

    /// Takes a key out.
    pub(crate) fn remove(&mut self, key: usize)
        requires { IsIn key self.old.keys }
        ensures others { self.new ≡ record self.old { keys = without_key key self.old.keys } }
        ensures shorter { length self.new.keys + 1 ≡ length self.old.keys }
    {
        skip(&mut self.links, key + 1);
        self.len -= 1;
    }

    /// Takes all keys out.
    pub(crate) fn clear(&mut self)
        ensures { self.new ≡ record self.old { keys = [] } }
    {
        close(&mut self.links);
        self.len = 0;
    }

    /// How many keys there are.
    pub(crate) fn len(&self) -> usize
        ensures { result ≡ length self.now.keys }
    {
        self.len
    }
}
