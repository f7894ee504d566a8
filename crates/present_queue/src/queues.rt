// All queues of a driver.
ghost use Rattle.std.specs.Prelude.{◌≡◌, ℕ, ◌<◌, ◌≤◌, [], replicate, length, option_map, slice_set, IfOk, OnOk, OnErr, IfNone};
ghost use Rattle.std.specs.List.{list_any};
ghost use Rattle.present_queue.specs.Queue.{answer_to_display, displayed, due, empty_queue, is_queued, is_shown, promised, ticked};
ghost use Rattle.present_queue.specs.Queues.{HasNodesOf, IsHolderOf, IsWithinLimits, count_entries, entry_of, has_holder, is_object, queue_at, queued_by};
ghost use Rattle.present_queue.specs.Kept.{shows_holder};

use crate::entry::Entry;
use index_lists::Links;
use std::alloc::{AllocError, Global};
use std::marker::Model;
use vd_status::Refusal;

const QUEUES: u32 = 64;

// So many entries wait in a queue at most.
const MAX_ENTRIES: u32 = 64;

// So many surfaces are live (1,024), queued (4,096) or shown (64) at most.
const HOLDERS: u32 = 5_184;

/// What is kept of a queue beside the list of its nodes: the holder of the surface that is visible, the
/// promise, and how many nodes the list has.
#[derive(Clone, Copy)]
struct Kept {
    visible: Option<u32>,
    promise: u64,
    length: u32,
}

/// The presentation queues of a driver, by their numbers: 64 of them, with at most 64 entries each.
///
/// A surface is known by its object, its place among all objects ever made, and by its holder, a number
/// below 5,184 that the caller gives it. While the surface is queued or shown, the holder is its own and no
/// other's. What is asked of a holder is answered without a walk along any queue's list.
#[derive(Drop)]
pub struct Queues {
    // A list for each queue, with a node for each entry: its surface's holder and its earliest time.
    links: Links,
    kept: Vec<Kept>,
    // By holder.
    objects: Vec<u64>,
}

impl Model for Queues {
    ghost use Rattle.std.specs.Prelude.{List};
    ghost use Rattle.std.specs.Coded.{coded_list};
    ghost use Rattle.present_queue.specs.Queue.{Queue, queue_code};
    ghost use Rattle.present_queue.specs.Queues.{Surface, surface_code};

    ghost Value = { List (Queue Surface) };

    ghost coded = { coded_list (queue_code surface_code) };

    ghost use Rattle.present_queue.specs.Kept.{IsSound, queues_with};

    ghost view = { λ q. queues_with q.objects.items q.links.queues q.kept.items };

    ghost invariant = { λ q. IsSound q.links q.kept.items q.objects.items };
}

impl Queues {
    /// All queues, empty. No other call takes memory.
    pub fn new(alloc: Global) -> Result<Queues, AllocError>
        ensures { IfOk result (λ queues. queues ≡ replicate 64 empty_queue) }
    {
        Ok(Queues {
            links: Links::new(alloc, QUEUES, HOLDERS, QUEUES * MAX_ENTRIES)?,
            kept: vec![in alloc; Kept::NOTHING; QUEUES as usize]?,
            objects: vec![in alloc; 0; HOLDERS as usize]?,
        })
    }

    /// Puts an entry of the surface with this holder behind the queue's others. `QueueFull` says that
    /// there are 64, else `EarlierThanPromise` that the entry's time is before the promise, which it
    /// carries.
    pub fn display(&mut self, queue: u32, holder: u32, entry: Entry) -> Result<(), Refusal>
        requires queue { queue < 64 }
        requires holder { holder < 5184 }
        requires owner { IsHolderOf self.old holder entry.object }
        ensures answer { result ≡ answer_to_display (queue_at self.old queue) entry.earliest }
        ensures ok { OnOk result (self.new ≡ slice_set self.old queue
            (displayed (queue_at self.old queue) (queued_by holder entry))) }
        ensures err { OnErr result (self.new ≡ self.old) }
    {
        let number = queue as usize;
        let kept = self.kept[number];
        if kept.length == MAX_ENTRIES {
            return Err(Refusal::QueueFull);
        }
        if entry.earliest < kept.promise {
            return Err(Refusal::EarlierThanPromise {
                promise: kept.promise,
            });
        }
        match self.links.push(queue, holder, entry.earliest) {
            Some(_) => {}
            // There is a node for each entry that all queues can have.
            None => unreachable!(),
        }
        self.objects[holder as usize] = entry.object;
        self.kept[number] = Kept {
            length: kept.length + 1,
            ..kept
        };
        Ok(())
    }

    /// Takes the queue's oldest entry if its time has come, shows its surface, and answers it. The surface
    /// shown before is let go.
    pub fn tick(&mut self, queue: u32, time: u64) -> Option<Entry>
        requires { queue < 64 }
        ensures entry { result ≡ option_map entry_of (due (queue_at self.old queue) time) }
        ensures after { self.new ≡ slice_set self.old queue
            (ticked (queue_at self.old queue) time) }
        ensures none { IfNone result (self.new ≡ self.old) }
    {
        let node = self.links.first(queue)?;
        let earliest = self.links.value(node);
        if time < earliest {
            return None;
        }
        let holder = self.links.holder(node);
        self.links.unlink(node);
        let kept = &mut self.kept[queue as usize];
        kept.length -= 1;
        kept.visible = Some(holder);
        Some(Entry {
            object: self.objects[holder as usize],
            earliest,
        })
    }

    /// The queue's oldest entry, if its time has come: the one that a tick at this time takes.
    pub fn due(&self, queue: u32, time: u64) -> Option<Entry>
        requires { queue < 64 }
        ensures { result ≡ option_map entry_of (due (queue_at self.now queue) time) }
    {
        let node = self.links.first(queue)?;
        let earliest = self.links.value(node);
        if time < earliest {
            return None;
        }
        let object = self.objects[self.links.holder(node) as usize];
        Some(Entry { object, earliest })
    }

    /// Whether some queue has an entry of the holder's surface.
    pub fn queued(&self, holder: u32) -> bool
        requires { holder < 5184 }
        ensures by_holder { result ≡ is_queued (has_holder holder) self.now }
        ensures by_object { (object : ℕ) → IsHolderOf self.now holder object
            → result ≡ is_queued (is_object object) self.now }
    {
        self.links.held(holder).is_some()
    }

    /// Whether some queue shows the holder's surface.
    pub fn shown(&self, holder: u32) -> bool
        requires { holder < 5184 }
        ensures by_holder { result ≡ is_shown (has_holder holder) self.now }
        ensures by_object { (object : ℕ) → IsHolderOf self.now holder object
            → result ≡ is_shown (is_object object) self.now }
    {
        some_shows(&self.kept, holder)
    }

    /// The object of the surface that the queue shows, if it shows one.
    pub fn visible(&self, queue: u32) -> Option<u64>
        requires { queue < 64 }
        ensures { result ≡ option_map (λ surface. surface.object)
            (queue_at self.now queue).visible }
    {
        let holder = self.kept[queue as usize].visible?;
        Some(self.objects[holder as usize])
    }

    /// Promises that no entry with an earlier time than this is displayed on the queue any more. A promise
    /// never falls.
    pub fn promise(&mut self, queue: u32, time: u64)
        requires { queue < 64 }
        ensures { self.new ≡ slice_set self.old queue (promised (queue_at self.old queue) time) }
    {
        let kept = &mut self.kept[queue as usize];
        kept.promise = kept.promise.max(time);
    }

    /// The time that was promised, at first 0.
    pub fn promised(&self, queue: u32) -> u64
        requires { queue < 64 }
        ensures { result ≡ (queue_at self.now queue).promise }
    {
        self.kept[queue as usize].promise
    }

    /// Makes the queue as it was at first: no entries, nothing shown, promise 0.
    pub fn clear(&mut self, queue: u32)
        requires { queue < 64 }
        ensures { self.new ≡ slice_set self.old queue empty_queue }
    {
        unlink_all(&mut self.links, queue);
        self.kept[queue as usize] = Kept::NOTHING;
    }

    /// The lists of nodes that the queues stand in: one node for each entry, with the holder of its surface
    /// and its time.
    pub fn links(&self) -> &Links
        ensures nodes { HasNodesOf result.now self.now }
        ensures room { (length result.now.holders ≡ 5184) × (result.now.nodes ≡ 4096) }
        ensures limits { IsWithinLimits self.now }
    {
        &self.links
    }

    /// How many entries all queues have.
    pub fn linked(&self) -> u32
        ensures entries { result ≡ count_entries self.now }
        ensures limits { IsWithinLimits self.now }
    {
        self.links.linked()
    }
}

fn some_shows(kept: &[Kept], holder: u32) -> bool
    ensures { result ≡ list_any (shows_holder holder) kept.now }
{
    kept.iter().any(|kept| kept.shows(holder))
}

fn unlink_all(links: &mut Links, queue: u32)
    requires { queue < length links.old.queues }
    ensures queues { links.new.queues ≡ slice_set links.old.queues queue [] }
    ensures holders { length links.new.holders ≡ length links.old.holders }
    ensures nodes { links.new.nodes ≡ links.old.nodes }
{
    while let Some(node) = links.first(queue) {
        links.unlink(node);
    }
}

impl Kept {
    const NOTHING: Kept = Kept {
        visible: None,
        promise: 0,
        length: 0,
    };

    fn shows(&self, holder: u32) -> bool
        ensures { result ≡ shows_holder holder self.now }
    {
        match self.visible {
            Some(shown) => shown == holder,
            None => false,
        }
    }
}
