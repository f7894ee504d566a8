// The words of a line.

/// Which job is begun.
#[derive(Clone, Copy, PartialEq, Eq)]
pub enum Kind {
    Render,
    Mix,
}

/// What the other thread does meanwhile.
#[derive(Clone, Copy, PartialEq, Eq)]
pub enum Deed {
    Target,
    Source,
    Maker,
    Device,
    Preempt,
    Renew,
    Display,
}

/// A job that is held at a place, and what is done meanwhile.
#[derive(Clone, Copy)]
pub struct Held {
    pub kind: Kind,
    pub place: u32,
    pub deed: Deed,
}

/// A line's case.
#[derive(Clone, Copy)]
pub enum Case<'a> {
    Held(Held),
    Two { calls: u32 },
    Waits,
    Refused(&'a str),
}

/// The case that a line asks for, if it does.
pub fn case_of(text: &str) -> Option<Case<'_>> {
    if text == "wait" {
        return Some(Case::Waits);
    }
    let (first, rest) = text.split_once(' ')?;
    let kind = match first {
        "two" => return Some(Case::Two {
            calls: rest.parse().ok()?,
        }),
        "refused" => return Some(Case::Refused(rest)),
        "render" => Kind::Render,
        "mix" => Kind::Mix,
        _ => return None,
    };
    let (place, deed) = rest.split_once(' ')?;
    Some(Case::Held(Held {
        kind,
        place: place.parse().ok()?,
        deed: deed_of(deed)?,
    }))
}

fn deed_of(word: &str) -> Option<Deed> {
    match word {
        "target" => Some(Deed::Target),
        "source" => Some(Deed::Source),
        "maker" => Some(Deed::Maker),
        "device" => Some(Deed::Device),
        "preempt" => Some(Deed::Preempt),
        "renew" => Some(Deed::Renew),
        "display" => Some(Deed::Display),
        _ => None,
    }
}
