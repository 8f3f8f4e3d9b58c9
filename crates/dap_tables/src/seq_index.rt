//! A key for each sequence number.
ghost use Rattle.std.specs.Prelude.{◌≡◌, ◌+◌, ◌<◌, ◌≤◌, [], length, false, IsTrue, None, Some, IfOk, OnErr, OnSome, vec_len, vec_capacity};
ghost use Rattle.dap_tables.specs.SeqIndex.{key_for, Gets};

use crate::seq_tree::{Node, SeqTree};
use std::alloc::{AllocError, Global};
use std::marker::Model;

/// Keys by number, found by the number's binary digits. Only `open` takes memory: a node for each number that there is
/// room for. No call but `open` and `clear` passes more than 65 of them.
#[derive(Debug, Drop)]
pub(crate) struct SeqIndex {
    tree: SeqTree,
    spare: Vec<Box<Node>>,
}

impl Model for SeqIndex {
    ghost use Rattle.std.specs.Prelude.{◌+◌, ◌≤◌, length, vec_len, vec_capacity};
    ghost use Rattle.dap_tables.specs.SeqIndex.{Index};

    ghost Value = { Index };

    ghost view = { λ index. record { room = length index.tree + vec_len index.spare; pairs = index.tree } };

    ghost invariant = { λ index. length index.tree + vec_len index.spare ≤ vec_capacity index.spare };
}

// So many nodes.
fn nodes(alloc: Global, n: usize) -> Result<Vec<Box<Node>>, AllocError>
    ensures len { IfOk result (λ nodes. vec_len nodes ≡ n) }
    ensures capacity { IfOk result (λ nodes. n ≤ vec_capacity nodes) }
    ensures memory { OnErr result (0 < n) }
{
    let mut nodes = Vec::with_capacity(alloc, n)?;
    for _ in 0..n {
        nodes.push_reserved(Box::new(alloc, Node::new(0, 0))?);
    }
    Ok(nodes)
}

impl SeqIndex {
    /// No number yet, and room for `n`.
    pub(crate) fn open(alloc: Global, n: usize) -> Result<SeqIndex, AllocError>
        ensures empty { IfOk result (λ index. index ≡ record { room = n; pairs = [] }) }
        ensures memory { OnErr result (0 < n) }
    {
        Ok(SeqIndex {
            tree: SeqTree::new(),
            spare: nodes(alloc, n)?,
        })
    }

    /// The key of a number.
    pub(crate) fn get(&self, seq: u64) -> Option<usize>
        ensures { result ≡ key_for seq self.now.pairs }
    {
        self.tree.get(seq)
    }

    /// Adds a new number.
    pub(crate) fn insert(&mut self, seq: u64, key: usize)
        requires new { key_for seq self.old.pairs ≡ None }
        requires room { length self.old.pairs < self.old.room }
        ensures gets { Gets self.old.pairs self.new.pairs seq (Some key) }
        ensures len { length self.new.pairs ≡ length self.old.pairs + 1 }
        ensures room { self.old.room ≤ self.new.room }
    {
        match self.spare.pop() {
            Some(node) => self.tree.insert(seq, key, node),
            None => unreachable!(),
        }
    }

    /// Takes a number out, with its key.
    pub(crate) fn remove(&mut self, seq: u64) -> Option<usize>
        ensures key { result ≡ key_for seq self.old.pairs }
        ensures gets { Gets self.old.pairs self.new.pairs seq None }
        ensures len { OnSome result (length self.new.pairs + 1 ≡ length self.old.pairs) }
        ensures room { self.new.room ≡ self.old.room }
        ensures absent { result ≡ None → self.new ≡ self.old }
    {
        let node = self.tree.remove(seq)?;
        let key = node.key;
        self.spare.push_reserved(node);
        Some(key)
    }

    /// Takes all numbers out.
    pub(crate) fn clear(&mut self)
        ensures { self.new ≡ record self.old { pairs = [] } }
    {
        while self.drop_one() {}
    }

    // Takes some number out, where there is one.
    fn drop_one(&mut self) -> bool
        ensures some { IsTrue result → length self.new.pairs + 1 ≡ length self.old.pairs }
        ensures none { result ≡ false → self.new.pairs ≡ [] }
        ensures room { self.new.room ≡ self.old.room }
    {
        match self.tree.take() {
            Some(node) => {
                self.spare.push_reserved(node);
                true
            }
            None => false,
        }
    }
}
