// Weights of predicted samples.
ghost use Rattle.std.specs.Prelude.{◌≡◌, ◌^◌, ◌≤◌, pos, ◌*ℤ◌, unsigned_abs};
ghost use Rattle.inter_pred.specs.Weights.{scaled, weighted};

// A sample times a weight.
#[inline(always)]
fn product(sample: u8, weight: i32) -> i32
    requires weight { unsigned_abs weight ≤ 128 }
    ensures value { result ≡ pos sample *ℤ weight }
    ensures bound { unsigned_abs result ≤ 32640 }
{
    i32::from(sample) * weight
}

// A product over 2 to the power of `denom`, rounded.
#[inline(always)]
fn scaled(product: i32, denom: u32) -> i32
    requires product { unsigned_abs product ≤ 32640 }
    requires denom { denom ≤ 7 }
    ensures value { result ≡ scaled denom product }
    ensures bound { unsigned_abs result ≤ 32768 }
{
    if denom == 0 {
        product
    } else {
        (product + (1 << (denom - 1))) >> denom
    }
}

// One sample under a weight and an offset.
#[inline(always)]
pub(crate) fn weighted(sample: u8, denom: u32, weight: i32, offset: i32) -> u8
    requires denom { denom ≤ 7 }
    requires weight { unsigned_abs weight ≤ 128 }
    requires offset { unsigned_abs offset ≤ 128 }
    ensures { result ≡ weighted denom weight offset sample }
{
    (scaled(product(sample, weight), denom) + offset).clamp(0, 255) as u8
}
