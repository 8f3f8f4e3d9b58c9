//! Keys by number, as a tree over the binary digits of the numbers.
ghost use Rattle.std.specs.Prelude.{◌≡◌, ◌+◌, [], ◌∷◌, length, None, Some, OnSome};
ghost use Rattle.std.specs.Option.{option_map};
ghost use Rattle.dap_tables.specs.SeqIndex.{key_for, Gets};
ghost use Rattle.dap_tables.specs.SeqTree.{pair_of_node, pairs_under, Fits, Takes};

use std::marker::Model;
use std::mem;

/// Numbers with their keys, seen as pairs.
///
/// One number stands at the root. Of the others the even ones are on one side and the odd ones on the other, each halved. So
/// a number of 64 bits has at most 64 others above it.
#[cycle(seq_tree)]
#[derive(Debug, Drop)]
pub(crate) struct SeqTree {
    root: Option<Box<Node>>,
}

/// A number, as the halvings down to here left it, with its key and both sides.
#[cycle(seq_tree)]
#[derive(Debug, Drop)]
pub(crate) struct Node {
    number: u64,
    pub(crate) key: usize,
    even: SeqTree,
    odd: SeqTree,
}

impl Model for SeqTree {
    ghost use Rattle.std.specs.Prelude.{ℕ, List, length};

    ghost Value = { List (ℕ × ℕ) };

    ghost use Rattle.dap_tables.specs.SeqTree.{pairs_of_side, IsSoundSide};

    ghost view = { λ tree. pairs_of_side tree.root };

    ghost invariant = { λ tree. IsSoundSide tree.root };

    ghost size = { length };

    ghost use Rattle.std.proofs.Common.{arith};
    ghost use Rattle.dap_tables.specs.SeqTreeFalls.{length-pairs_under};

    ghost size_decreases = { λ a h. Prim.grind (arith, length-pairs_under) };
}

impl Node {
    /// A number alone.
    pub(crate) fn new(number: u64, key: usize) -> Node
        ensures { result ≡ record { number = number; key = key; even = []; odd = [] } }
    {
        Node {
            number,
            key,
            even: SeqTree::new(),
            odd: SeqTree::new(),
        }
    }

    // Takes the number at the root of a side out, as it is above the side.
    #[cycle(take)]
    fn take_below(&mut self) -> Option<Box<Node>>
        requires { Fits (pairs_under self.old.even self.old.odd) }
        ensures takes { Takes (pairs_under self.old.even self.old.odd) (pairs_under self.new.even self.new.odd) result }
        ensures same { pair_of_node self.new ≡ pair_of_node self.old }
    {
        match self.even.take() {
            Some(mut node) => {
                node.number *= 2;
                Some(node)
            }
            None => match self.odd.take() {
                Some(mut node) => {
                    node.number = node.number * 2 + 1;
                    Some(node)
                }
                None => None,
            },
        }
    }
}

// Each of two nodes gets the number of the other, with its key.
fn swap_numbers(a: &mut Node, b: &mut Node)
    ensures a { a.new ≡ record a.old { number = b.old.number; key = b.old.key } }
    ensures b { b.new ≡ record b.old { number = a.old.number; key = a.old.key } }
{
    mem::swap(&mut a.number, &mut b.number);
    mem::swap(&mut a.key, &mut b.key);
}

impl SeqTree {
    /// No number.
    pub(crate) fn new() -> SeqTree
        ensures { result ≡ [] }
    {
        SeqTree { root: None }
    }

    // A number alone, in this node.
    fn alone(number: u64, key: usize, mut node: Box<Node>) -> SeqTree
        ensures { result ≡ (number, key) ∷ [] }
    {
        *node = Node::new(number, key);
        SeqTree { root: Some(node) }
    }

    /// The key of a number.
    pub(crate) fn get(&self, number: u64) -> Option<usize>
        ensures { result ≡ key_for number self.now }
    {
        let Some(node) = &self.root else {
            return None;
        };
        if node.number == number {
            return Some(node.key);
        }
        if number % 2 == 0 {
            return node.even.get(number / 2);
        }
        node.odd.get(number / 2)
    }

    /// Adds a new number, in this node.
    pub(crate) fn insert(&mut self, number: u64, key: usize, node: Box<Node>)
        requires { key_for number self.old ≡ None }
        ensures gets { Gets self.old self.new number (Some key) }
        ensures len { length self.new ≡ length self.old + 1 }
    {
        match &mut self.root {
            None => *self = SeqTree::alone(number, key, node),
            Some(above) => {
                if number % 2 == 0 {
                    above.even.insert(number / 2, key, node);
                } else {
                    above.odd.insert(number / 2, key, node);
                }
            }
        }
    }

    /// Takes a number out, in the node that is free then.
    pub(crate) fn remove(&mut self, number: u64) -> Option<Box<Node>>
        ensures key { option_map (λ node. node.value.key) result ≡ key_for number self.old }
        ensures gets { Gets self.old self.new number None }
        ensures len { OnSome result (length self.new + 1 ≡ length self.old) }
        ensures absent { result ≡ None → self.new ≡ self.old }
    {
        match &mut self.root {
            None => None,
            Some(node) => {
                if node.number == number {
                    return self.take();
                }
                if number % 2 == 0 {
                    return node.even.remove(number / 2);
                }
                node.odd.remove(number / 2)
            }
        }
    }

    /// Takes the number at the root out, in the node that is free then. One from below takes its place.
    #[cycle(take)]
    pub(crate) fn take(&mut self) -> Option<Box<Node>>
        ensures { Takes self.old self.new result }
    {
        match &mut self.root {
            None => None,
            Some(node) => match node.take_below() {
                Some(mut below) => {
                    swap_numbers(node, &mut below);
                    Some(below)
                }
                None => self.root.take(),
            },
        }
    }
}
