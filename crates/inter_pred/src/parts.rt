// The samples of which those at quarter places are means.
ghost use Rattle.std.specs.Prelude.{◌≡◌, ◌<◌};
ghost use Rattle.inter_pred.specs.Luma.{Near, quarter};
ghost use Rattle.inter_pred.specs.Parts.{mean_of};

// A sample about a whole place (H.264, Figure 8-4, whose names are in brackets).
#[derive(Clone, Copy)]
pub(crate) enum Part {
    // at the place (G), right of it (H) and below it (M)
    Whole,
    WholeRight,
    WholeBelow,
    // half a sample right of the place (b), and right of the one below it (s)
    Across,
    AcrossBelow,
    // half a sample below the place (h), and below the one right of it (m)
    Down,
    DownRight,
    // half a sample right and half a sample below (j)
    Centre,
}

// One sample, or the mean of two.
#[derive(Clone, Copy)]
pub(crate) struct Parts {
    pub(crate) first: Part,
    pub(crate) second: Option<Part>,
}

// One sample by itself.
fn alone(first: Part) -> Parts
    ensures { result ≡ record { first = first; second = None } }
{
    Parts {
        first,
        second: None,
    }
}

// The mean of two.
fn both(first: Part, second: Part) -> Parts
    ensures { result ≡ record { first = first; second = Some second } }
{
    Parts {
        first,
        second: Some(second),
    }
}

// Of what the sample so many quarters right of a whole place and so many below it is the mean
// (H.264, Table 8-12).
pub(crate) fn made_of(right: u32, below: u32) -> Parts
    requires right { right < 4 }
    requires below { below < 4 }
    ensures { (n : Near) → mean_of result n ≡ quarter n right below }
{
    match (right, below) {
        (0, 0) => alone(Part::Whole),
        (1, 0) => both(Part::Across, Part::Whole),
        (2, 0) => alone(Part::Across),
        (3, 0) => both(Part::Across, Part::WholeRight),
        (0, 1) => both(Part::Down, Part::Whole),
        (1, 1) => both(Part::Across, Part::Down),
        (2, 1) => both(Part::Centre, Part::Across),
        (3, 1) => both(Part::Across, Part::DownRight),
        (0, 2) => alone(Part::Down),
        (1, 2) => both(Part::Centre, Part::Down),
        (2, 2) => alone(Part::Centre),
        (3, 2) => both(Part::Centre, Part::DownRight),
        (0, 3) => both(Part::Down, Part::WholeBelow),
        (1, 3) => both(Part::Down, Part::AcrossBelow),
        (2, 3) => both(Part::Centre, Part::AcrossBelow),
        _ => both(Part::DownRight, Part::AcrossBelow),
    }
}
