// Doubly linked lists that share their nodes' numbers.
ghost use Rattle.std.specs.Prelude.{◌≡◌, ℕ, ◌+◌, ◌<◌, ◌^◌, List, [], ◌∷◌, ◌++◌, length, replicate, IfOk, IfSome, slice_get, slice_index, slice_set};
ghost use Rattle.index_lists.specs.Lists.{StandOnce, list_at};
ghost use Rattle.index_lists.specs.Rings.{IsInSome};

use std::alloc::{AllocError, Global};
use std::marker::Model;

/// Lists of nodes, in which each node stands once at most.
///
/// The lists are linked both ways and closed to rings: behind the numbers of the nodes each list has a
/// number of its own, which stands before its first node and after its last.
#[derive(Drop)]
pub struct Rings {
    neighbours: Neighbours,
    nodes: usize,
}

// What stands after each number and before it.
#[derive(Drop)]
struct Neighbours {
    next: Vec<usize>,
    previous: Vec<usize>,
}

impl Neighbours {
    // Puts one number right before another.
    fn join(&mut self, before: usize, after: usize)
        requires before { before < length self.old.next.items }
        requires after { after < length self.old.previous.items }
        ensures next { self.new.next.items ≡ slice_set self.old.next.items before after }
        ensures previous { self.new.previous.items ≡ slice_set self.old.previous.items after before }
    {
        self.next[before] = after;
        self.previous[after] = before;
    }
}

// So many numbers, each with itself for its neighbour.
fn alone(alloc: Global, count: usize) -> Result<Vec<usize>, AllocError>
    ensures count { IfOk result (λ numbers. length numbers.items ≡ count) }
    ensures alone { IfOk result (λ numbers. (n : ℕ) → n < count
        → slice_index numbers.items n ≡ n) }
{
    let mut numbers = Vec::with_capacity(alloc, count)?;
    for number in 0..count {
        numbers.push(number)?;
    }
    Ok(numbers)
}

impl Model for Rings {
    ghost use Rattle.index_lists.specs.Rings.{NodeLists, IsSound, lists_in};

    ghost Value = { NodeLists };

    ghost view = { λ r. record {
      nodes = r.nodes;
      lists = lists_in r.nodes r.neighbours.next.items;
    } };

    ghost invariant = { λ r. IsSound r.nodes r.neighbours.next.items r.neighbours.previous.items };
}

impl Rings {
    /// So many empty lists, of so many nodes at most.
    pub fn new(alloc: Global, nodes: usize, lists: usize) -> Result<Rings, AllocError>
        requires { nodes + lists < 2 ^ 64 }
        ensures nodes { IfOk result (λ r. r.nodes ≡ nodes) }
        ensures lists { IfOk result (λ r. r.lists ≡ replicate lists []) }
        ensures once { IfOk result (λ r. StandOnce r.lists) }
    {
        Ok(Rings {
            neighbours: Neighbours {
                next: alone(alloc, nodes + lists)?,
                previous: alone(alloc, nodes + lists)?,
            },
            nodes,
        })
    }

    /// The first node of a list.
    pub fn first(&self, list: usize) -> Option<usize>
        requires { list < length self.now.lists }
        ensures first { result ≡ slice_get (list_at self.now.lists list) 0 }
        ensures node { IfSome result (λ node. node < self.now.nodes) }
    {
        let first = self.neighbours.next[self.nodes + list];
        if first < self.nodes {
            Some(first)
        } else {
            None
        }
    }

    /// Puts a node at the end of a list.
    pub fn append(&mut self, list: usize, node: usize)
        requires list { list < length self.old.lists }
        requires node { node < self.old.nodes }
        requires unlinked { ¬ IsInSome self.old.lists node }
        requires short { length (list_at self.old.lists list) < self.old.nodes }
        ensures nodes { self.new.nodes ≡ self.old.nodes }
        ensures lists { self.new.lists
            ≡ slice_set self.old.lists list (list_at self.old.lists list ++ node ∷ []) }
        ensures once { StandOnce self.new.lists }
    {
        let end = self.nodes + list;
        let last = self.neighbours.previous[end];
        self.neighbours.join(last, node);
        self.neighbours.join(node, end);
    }

    /// Takes a node out of the list that it stands in.
    pub fn unlink(&mut self, node: usize)
        requires { IsInSome self.old.lists node }
        ensures nodes { self.new.nodes ≡ self.old.nodes }
        ensures lists { (list : ℕ) (before after : List ℕ)
            → list_at self.old.lists list ≡ before ++ node ∷ after
            → self.new.lists ≡ slice_set self.old.lists list (before ++ after) }
        ensures count { length self.new.lists ≡ length self.old.lists }
        ensures once { StandOnce self.new.lists }
    {
        let before = self.neighbours.previous[node];
        let after = self.neighbours.next[node];
        self.neighbours.join(before, after);
    }
}
