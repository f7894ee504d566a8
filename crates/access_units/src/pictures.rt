// The pictures so far, as far as the next one depends on them.
ghost use Rattle.std.specs.Prelude.{◌≡◌, ◌≤◌, ◌<◌, ◌↔◌, ℕ, List, [], ◌∷◌, None, IfSome, IsTrue, false, map, reverse};
ghost use Rattle.access_units.specs.Pictures.{AreOwn, BeginsBehind, Picture, marked_of, with_count};
ghost use Rattle.access_units.specs.Readable.{IsReadable};
ghost use Rattle.access_units.specs.Sequences.{AreOfSequence, HasNoneAtIdr};
ghost use Rattle.access_units.specs.Stands.{HasItsSet, IsLater, StandsBehind};
ghost use Rattle.cb_types.specs.AcceptedInfo.{IsAccepted, IsAcceptedBySome};
ghost use Rattle.marking.specs.History.{AreApartFrom, AreNamed};
ghost use Rattle.output_order.specs.OutputOrder.{History, has_settled};
ghost use Rattle.output_order.specs.Waiting.{StandsFor};

use super::content::Named;
use super::depth::depth_of;
use marking::{Begun, Marker};
use output_order::Waiting;
use param_sets::Sps;

/// As many pictures are accepted in one file.
pub const MAX_PICTURES: u32 = 7_000_000;

/// What the next picture depends on of those before: the marking, whose turn it is, and the last sequence
/// set.
#[derive(Drop)]
pub struct Pictures {
    marker: Marker,
    waiting: Waiting,
    last: Option<Sps>,
    count: u32,
}

impl Pictures {
    /// No picture came.
    pub fn new() -> Pictures
        ensures { StandsBehind result [] }
    {
        Pictures {
            marker: Marker::new(),
            waiting: Waiting::new(),
            last: None,
            count: 0,
        }
    }

    /// What a picture begins with whose first slice has this header, None where none may begin so.
    pub fn begin(&self, named: &Named) -> Option<Begun>
        requires readable { IsReadable named.now }
        requires behind { (before : List Picture) × StandsBehind self.now before }
        ensures some { IfSome result (λ begun. (before : List Picture) → StandsBehind self.now before → BeginsBehind before named.now begun) }
        ensures none { result ≡ None → (before : List Picture) (begun : Begun) → StandsBehind self.now before → ¬ BeginsBehind before named.now begun }
        ensures info { IfSome result (λ begun. IsAcceptedBySome begun.info) }
        ensures baseline { IfSome result (λ begun. IsAccepted 0 16 begun.info) }
        ensures header { IfSome result (λ begun. begun.header ≡ named.now.header) }
        ensures frame { IfSome result (λ begun. begun.frame ≤ 16) }
        ensures references { IfSome result (λ begun. (before : List Picture) → StandsBehind self.now before → AreNamed (reverse (map marked_of before)) begun.info.references) }
        ensures own { IfSome result (λ begun. (before : List Picture) → StandsBehind self.now before → AreOwn before begun.info.references) }
        ensures sequence { IfSome result (λ begun. (before : List Picture) → StandsBehind self.now before → AreOfSequence before begun.info.references) }
        ensures none_at_idr { IfSome result HasNoneAtIdr }
        ensures apart { IfSome result (λ begun. AreApartFrom begun.frame begun.info.references) }
    {
        if self.count >= MAX_PICTURES || !self.has_its_set(named) {
            return None;
        }
        let Ok(begun) = self.marker.begin(&named.sps, &named.pps, &named.header) else {
            return None;
        };
        let mut waiting = self.waiting;
        let depth = depth_of(&named.sps);
        match waiting.push(self.count, begun.poc, begun.period, depth) {
            Ok(()) => Some(begun),
            Err(_) => None,
        }
    }

    // Whether the picture is IDR, or of the sequence set of the one before.
    fn has_its_set(&self, named: &Named) -> bool
        ensures { IsTrue result ↔ HasItsSet self.now.last named.now }
    {
        if named.header.is_idr() {
            return true;
        }
        match &self.last {
            Some(last) => *last == named.sps,
            None => false,
        }
    }

    /// The picture that `begin` gave comes.
    pub fn add(&mut self, named: &Named, begun: &Begun)
        requires readable { IsReadable named.now }
        requires behind { (before : List Picture) × StandsBehind self.old before × BeginsBehind before named.now begun.now }
        ensures { (before : List Picture) (picture : Picture) (slices : ℕ) → StandsBehind self.old before → BeginsBehind before named.now begun.now →
            picture.sps ≡ named.now.sps → picture.begun ≡ with_count slices begun.now → StandsBehind self.new (picture ∷ before) }
    {
        self.marker.finish(begun);
        let depth = depth_of(&named.sps);
        let _ = self
            .waiting
            .push(self.count, begun.poc, begun.period, depth);
        pop_settled(&mut self.waiting);
        self.last = Some(named.sps);
        self.count += 1;
    }
}

// All pictures come out whose turn is settled.
fn pop_settled(waiting: &mut Waiting)
    requires { (h : History) × StandsFor waiting.old h }
    ensures { (h : History) → StandsFor waiting.old h → (after : History) × StandsFor waiting.new after × IsLater h after × (has_settled after ≡ false) }
{
    while waiting.pop().is_some() {}
}
