// Lines of samples across an edge, in a plane's samples row by row.
ghost use Rattle.std.specs.Prelude.{◌≡◌, ◌+◌, ◌*◌, ◌<◌, ◌≤◌, length};
ghost use Rattle.deblock.specs.Lines.{put_edge, put_line, side_after, side_before};

// The samples of a line on one side of the edge, counted from the edge: p0 to p3, or q0 to q3.
#[derive(Clone, Copy)]
pub(crate) struct Side {
    pub(crate) s0: u8,
    pub(crate) s1: u8,
    pub(crate) s2: u8,
    pub(crate) s3: u8,
}

// The samples of a line.
#[derive(Clone, Copy)]
pub(crate) struct Samples {
    pub(crate) p: Side,
    pub(crate) q: Side,
}

// The two samples of a line beside the edge.
#[derive(Clone, Copy)]
pub(crate) struct Edge {
    pub(crate) p0: u8,
    pub(crate) q0: u8,
}

// How a line is filtered: by its boundary strength, the thresholds α and β, and tC0.
#[derive(Clone, Copy)]
pub(crate) struct Filter {
    pub(crate) strength: u8,
    pub(crate) alpha: u32,
    pub(crate) beta: u32,
    pub(crate) tc0: u32,
}

// p0 to p3, where q0 stands at a place.
#[inline(always)]
pub(crate) fn side_before(samples: &[u8], at: usize, step: usize) -> Side
    requires before { 4 * step ≤ at }
    requires after { at < length samples.now }
    requires some { 1 ≤ step }
    ensures { result ≡ side_before samples.now at step }
{
    Side {
        s0: samples[at - step],
        s1: samples[at - 2 * step],
        s2: samples[at - 3 * step],
        s3: samples[at - 4 * step],
    }
}

// q0 to q3, where q0 stands at a place.
#[inline(always)]
pub(crate) fn side_after(samples: &[u8], at: usize, step: usize) -> Side
    requires { at + 3 * step < length samples.now }
    ensures { result ≡ side_after samples.now at step }
{
    Side {
        s0: samples[at],
        s1: samples[at + step],
        s2: samples[at + 2 * step],
        s3: samples[at + 3 * step],
    }
}

// Puts the three samples of each side that a filter changes into their places.
#[inline(always)]
pub(crate) fn put_line(samples: &mut [u8], at: usize, step: usize, line: Samples)
    requires before { 4 * step ≤ at }
    requires after { at + 3 * step < length samples.old }
    requires some { 1 ≤ step }
    ensures { samples.new ≡ put_line samples.old at step line }
{
    samples[at - step] = line.p.s0;
    samples[at - 2 * step] = line.p.s1;
    samples[at - 3 * step] = line.p.s2;
    samples[at] = line.q.s0;
    samples[at + step] = line.q.s1;
    samples[at + 2 * step] = line.q.s2;
}

// Puts the two samples beside the edge into their places.
#[inline(always)]
pub(crate) fn put_edge(samples: &mut [u8], at: usize, step: usize, edge: Edge)
    requires before { step ≤ at }
    requires after { at < length samples.old }
    requires some { 1 ≤ step }
    ensures { samples.new ≡ put_edge samples.old at step edge }
{
    samples[at - step] = edge.p0;
    samples[at] = edge.q0;
}
