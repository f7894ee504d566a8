// The filter of one line of samples. H.264, 8.7.2.2 to 8.7.2.4.
ghost use Rattle.std.specs.Prelude.{◌≡◌, ◌≤◌, ◌<◌, pos, ◌+ℤ◌, ◌-ℤ◌, unsigned_abs};
ghost use Rattle.deblock.specs.Filters.{chroma_changed, clip1, delta, is_filtered, is_smooth, long, luma_changed, normal_luma, second, second_or_own, short, strong_side};

use crate::line::{Edge, Filter, Samples, Side};

// Whether the samples of a line are filtered.
#[inline(always)]
#[tactic(auto, unfolding(crate::specs::Filters::is_filtered))]
pub(crate) fn is_filtered(filter: Filter, p1: u8, p0: u8, q0: u8, q1: u8) -> bool
    ensures { result ≡ is_filtered filter p1 p0 q0 q1 }
{
    filter.strength > 0
        && u32::from(p0.abs_diff(q0)) < filter.alpha
        && u32::from(p1.abs_diff(p0)) < filter.beta
        && u32::from(q1.abs_diff(q0)) < filter.beta
}

// Whether a side's third sample is near its first one.
#[inline(always)]
#[tactic(auto, unfolding(crate::specs::Filters::is_smooth))]
fn is_smooth(filter: Filter, own: Side) -> bool
    ensures { result ≡ is_smooth filter own }
{
    u32::from(own.s2.abs_diff(own.s0)) < filter.beta
}

// What p0 gains and q0 loses, `tc` at most.
#[inline(always)]
fn delta(tc: u32, p1: u8, p0: u8, q0: u8, q1: u8) -> i32
    requires { tc ≤ 27 }
    ensures value { result ≡ delta tc p1 p0 q0 q1 }
    ensures bound { unsigned_abs result ≤ 27 }
{
    let step = 4 * (i32::from(q0) - i32::from(p0));
    let slope = i32::from(p1) - i32::from(q1);
    let most = tc as i32;
    ((step + slope + 4) >> 3).clamp(-most, most)
}

// A sample raised by a number.
#[inline(always)]
fn raised(sample: u8, by: i32) -> u8
    requires { unsigned_abs by ≤ 27 }
    ensures { result ≡ clip1 (pos sample +ℤ by) }
{
    (i32::from(sample) + by).clamp(0, 255) as u8
}

// A sample lowered by a number.
#[inline(always)]
fn lowered(sample: u8, by: i32) -> u8
    requires { unsigned_abs by ≤ 27 }
    ensures { result ≡ clip1 (pos sample -ℤ by) }
{
    (i32::from(sample) - by).clamp(0, 255) as u8
}

// A sample beside the edge at strength 4, from its own side's first two and the other side's second.
#[inline(always)]
#[tactic(auto, unfolding(crate::specs::Filters::short))]
fn short(own1: u8, own0: u8, other1: u8) -> u8
    ensures { result ≡ short own1 own0 other1 }
{
    ((2 * u32::from(own1) + u32::from(own0) + u32::from(other1) + 2) / 4) as u8
}

// By how much the second sample of a smooth side rises.
#[inline(always)]
fn second(filter: Filter, own: Side, other: Side) -> u8
    requires { filter.tc0 ≤ 25 }
    ensures { result ≡ second filter own other }
{
    let mean = ((u32::from(own.s0) + u32::from(other.s0) + 1) / 2) as i32;
    let most = filter.tc0 as i32;
    let rise = (i32::from(own.s2) + mean - 2 * i32::from(own.s1)) >> 1;
    (i32::from(own.s1) + rise.clamp(-most, most)).clamp(0, 255) as u8
}

#[inline(always)]
fn second_or_own(filter: Filter, own: Side, other: Side) -> u8
    requires { filter.tc0 ≤ 25 }
    ensures { result ≡ second_or_own filter own other }
{
    if is_smooth(filter, own) {
        second(filter, own, other)
    } else {
        own.s1
    }
}

// A line of luma at strengths 1 to 3.
#[inline(always)]
#[tactic(auto, unfolding(crate::specs::Filters::normal_luma))]
fn normal_luma(filter: Filter, p: Side, q: Side) -> Samples
    requires { filter.tc0 ≤ 25 }
    ensures { result ≡ normal_luma filter p q }
{
    let tc = filter.tc0 + u32::from(is_smooth(filter, p)) + u32::from(is_smooth(filter, q));
    let delta = delta(tc, p.s1, p.s0, q.s0, q.s1);
    Samples {
        p: Side {
            s0: raised(p.s0, delta),
            s1: second_or_own(filter, p, q),
            ..p
        },
        q: Side {
            s0: lowered(q.s0, delta),
            s1: second_or_own(filter, q, p),
            ..q
        },
    }
}

// Three samples of a smooth side at strength 4.
#[inline(always)]
#[tactic(auto, unfolding(crate::specs::Filters::long))]
fn long(own: Side, other: Side) -> Side
    ensures { result ≡ long own other }
{
    let near = u32::from(own.s1) + u32::from(own.s0) + u32::from(other.s0);
    let s2 = u32::from(own.s2);
    Side {
        s0: ((s2 + 2 * near + u32::from(other.s1) + 4) / 8) as u8,
        s1: ((s2 + near + 2) / 4) as u8,
        s2: ((2 * u32::from(own.s3) + 3 * s2 + near + 4) / 8) as u8,
        s3: own.s3,
    }
}

// One side of a line of luma at strength 4.
#[inline(always)]
#[tactic(auto, unfolding(crate::specs::Filters::strong_side))]
fn strong_side(filter: Filter, own: Side, other: Side) -> Side
    requires { filter.alpha ≤ 255 }
    ensures { result ≡ strong_side filter own other }
{
    if is_smooth(filter, own) && u32::from(own.s0.abs_diff(other.s0)) < filter.alpha / 4 + 2 {
        long(own, other)
    } else {
        Side {
            s0: short(own.s1, own.s0, other.s1),
            ..own
        }
    }
}

// A line of luma that is filtered.
#[inline(always)]
#[tactic(auto, unfolding(crate::specs::Filters::luma_changed))]
pub(crate) fn luma_changed(filter: Filter, p: Side, q: Side) -> Samples
    requires alpha { filter.alpha ≤ 255 }
    requires tc0 { filter.tc0 ≤ 25 }
    ensures { result ≡ luma_changed filter p q }
{
    if filter.strength == 4 {
        Samples {
            p: strong_side(filter, p, q),
            q: strong_side(filter, q, p),
        }
    } else {
        normal_luma(filter, p, q)
    }
}

// The two samples beside the edge of a line of chroma that is filtered.
#[inline(always)]
#[tactic(auto, unfolding(crate::specs::Filters::chroma_changed))]
pub(crate) fn chroma_changed(filter: Filter, p1: u8, p0: u8, q0: u8, q1: u8) -> Edge
    requires { filter.tc0 ≤ 25 }
    ensures { result ≡ chroma_changed filter p1 p0 q0 q1 }
{
    if filter.strength == 4 {
        Edge {
            p0: short(p1, p0, q1),
            q0: short(q1, q0, p1),
        }
    } else {
        let delta = delta(filter.tc0 + 1, p1, p0, q0, q1);
        Edge {
            p0: raised(p0, delta),
            q0: lowered(q0, delta),
        }
    }
}
