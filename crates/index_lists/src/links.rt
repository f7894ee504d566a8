// The two families of lists over one set of nodes.
ghost use Rattle.std.specs.Prelude.{◌≡◌, ℕ, ◌<◌, ◌≤◌, ◌↔◌, ◌++◌, ◌∷◌, List, [], length, replicate, sum_by, Contains, Some, None, IfOk, IfSome, IsSome, option_map, slice_get, slice_set};
ghost use Rattle.index_lists.specs.Lists.{Link, HoldSameNodes, IsLinked, held_by, linked_in, queue_of};

use crate::rings::Rings;
use slab::Slab;
use std::alloc::{AllocError, Global};
use std::marker::Model;

/// A list of nodes for each queue and one for each holder. Each linked node stands in a queue's list
/// and in a holder's at once, and has a value.
///
/// Queues, holders and nodes go by numbers, those of queues and holders from 0 on. No call but `new`
/// takes memory, and none walks along a list.
#[derive(Drop)]
pub struct Links {
    // The linked nodes, each under its number.
    nodes: Slab<Node>,
    by_queue: Rings,
    by_holder: Rings,
    // So many may be linked at a time.
    most: u32,
}

#[derive(Drop)]
struct Node {
    holder: u32,
    value: u64,
}

impl Model for Links {
    ghost use Rattle.index_lists.specs.Lists.{Lists};

    ghost Value = { Lists };

    ghost use Rattle.index_lists.specs.Nodes.{IsSound, lists_of};

    ghost view = { λ l. lists_of l.nodes l.by_queue l.by_holder l.most };

    ghost invariant = { λ l. IsSound l.nodes l.by_queue l.by_holder l.most };
}

impl Links {
    /// So many empty lists of queues and of holders, and so many nodes to link. It takes all the memory
    /// that linking will need.
    pub fn new(alloc: Global, queues: u32, holders: u32, nodes: u32) -> Result<Links, AllocError>
        ensures queues { IfOk result (λ links. links.queues ≡ replicate queues []) }
        ensures holders { IfOk result (λ links. links.holders ≡ replicate holders []) }
        ensures nodes { IfOk result (λ links. links.nodes ≡ nodes) }
        ensures same { IfOk result HoldSameNodes }
    {
        let slots = Slab::with_capacity(alloc, nodes as usize)?;
        let keys = slots.capacity();
        // Each key is below the capacity, and a node's number is its key as a `u32`.
        if keys > u32::MAX as usize {
            return Err(AllocError);
        }
        Ok(Links {
            nodes: slots,
            by_queue: Rings::new(alloc, keys, queues as usize)?,
            by_holder: Rings::new(alloc, keys, holders as usize)?,
            most: nodes,
        })
    }

    /// Links a node with this value at the end of the queue's list and of the holder's. None where all
    /// nodes are linked.
    pub fn push(&mut self, queue: u32, holder: u32, value: u64) -> Option<u32>
        requires queue { queue < length self.old.queues }
        requires holder { holder < length self.old.holders }
        // The node was free, and stands at the end of both lists. The others are as they were.
        ensures free { IfSome result (λ node. ¬ IsLinked self.old node) }
        ensures queues { IfSome result (λ node. self.new.queues ≡ slice_set self.old.queues queue
            (queue_of self.old queue ++ record { node = node; holder = holder; value = value } ∷ [])) }
        ensures holders { IfSome result (λ node. self.new.holders ≡ slice_set self.old.holders holder
            (held_by self.old holder ++ node ∷ [])) }
        ensures nodes { self.new.nodes ≡ self.old.nodes }
        ensures same { HoldSameNodes self.new }

        // There is none exactly where all are linked, and then nothing changes.
        ensures none { (result ≡ None) ↔ (linked_in self.old ≡ self.old.nodes) }
        ensures refused { result ≡ None → self.new ≡ self.old }
    {
        if self.linked() == self.most {
            return None;
        }
        let node = self.nodes.insert_reserved(Node { holder, value });
        self.by_queue.append(queue as usize, node);
        self.by_holder.append(holder as usize, node);
        Some(node as u32)
    }

    /// The first node of the queue's list.
    pub fn first(&self, queue: u32) -> Option<u32>
        requires { queue < length self.now.queues }
        ensures first { result
            ≡ option_map (λ link. link.node) (slice_get (queue_of self.now queue) 0) }
        ensures linked { IfSome result (IsLinked self.now) }
    {
        let node = self.by_queue.first(queue as usize)?;
        Some(node as u32)
    }

    /// The node that has been with the holder for longest.
    pub fn held(&self, holder: u32) -> Option<u32>
        requires { holder < length self.now.holders }
        ensures first { result ≡ slice_get (held_by self.now holder) 0 }
        ensures linked { IfSome result (IsLinked self.now) }
        ensures same { HoldSameNodes self.now }
    {
        let node = self.by_holder.first(holder as usize)?;
        Some(node as u32)
    }

    /// The value that a linked node has.
    pub fn value(&self, node: u32) -> u64
        requires { IsLinked self.now node }
        ensures { (queue : ℕ) (link : Link) → Contains (queue_of self.now queue) link
            → link.node ≡ node → result ≡ link.value }
    {
        self.nodes[node as usize].value
    }

    /// The holder in whose list a linked node stands.
    pub fn holder(&self, node: u32) -> u32
        requires { IsLinked self.now node }
        ensures holder { (queue : ℕ) (link : Link) → Contains (queue_of self.now queue) link
            → link.node ≡ node → result ≡ link.holder }
        ensures held { Contains (held_by self.now result) node }
        ensures in_range { result < length self.now.holders }
    {
        self.nodes[node as usize].holder
    }

    /// Takes a linked node out of both its lists, and frees it.
    pub fn unlink(&mut self, node: u32)
        requires { IsLinked self.old node }
        // Its neighbours in each list stand side by side now, and the other lists are as they were.
        ensures queues { (queue : ℕ) (before after : List Link) (link : Link)
            → queue_of self.old queue ≡ before ++ link ∷ after → link.node ≡ node
            → self.new.queues ≡ slice_set self.old.queues queue (before ++ after) }
        ensures holders { (holder : ℕ) (before after : List ℕ)
            → held_by self.old holder ≡ before ++ node ∷ after
            → self.new.holders ≡ slice_set self.old.holders holder (before ++ after) }
        ensures sizes { (length self.new.queues ≡ length self.old.queues)
            × (length self.new.holders ≡ length self.old.holders) }
        ensures nodes { self.new.nodes ≡ self.old.nodes }
        ensures freed { ¬ IsLinked self.new node }
        ensures same { HoldSameNodes self.new }
    {
        let key = node as usize;
        self.nodes.remove(key);
        self.by_queue.unlink(key);
        self.by_holder.unlink(key);
    }

    /// How many nodes are linked.
    pub fn linked(&self) -> u32
        ensures in_queues { result ≡ linked_in self.now }
        ensures in_holders { result ≡ sum_by length self.now.holders }
        ensures bound { result ≤ self.now.nodes }
    {
        self.nodes.len() as u32
    }
}
