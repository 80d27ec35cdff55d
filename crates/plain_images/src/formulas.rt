//! The formulas of samples.

ghost use Rattle.std.specs.Prelude.{◌≡◌, ℕ, ◌<◌, ◌≤◌};
ghost use Rattle.pixel_formats.specs.Average.{mean_of_four, mean_of_three};
ghost use Rattle.pixel_formats.specs.{Add.added, Convert.rescaled, Gain.gained, Invert.inverted, Mask.scaled_by, Over.composited};
ghost use Rattle.pixel_formats.specs.Format.{depth, max_sample};
ghost use Rattle.pixel_formats.specs.Threshold.{thresholded};

use pixel_formats::Format;

/// Returns a color subtracted from its cap.
pub fn inverted(cap: u32, color: u32) -> u32
    ensures { result ≡ inverted cap color }
{
    cap.saturating_sub(color)
}

/// Returns the cap for a color that reaches the threshold, and 0 for one below it.
pub fn thresholded(threshold: u32, cap: u32, color: u32) -> u32
    ensures { result ≡ thresholded threshold cap color }
{
    if threshold <= color { cap } else { 0 }
}

/// Returns `num` of `den` parts of a color, rounded to the nearest, and at most the cap.
pub fn gained(num: u32, den: u32, cap: u32, color: u32) -> u32
    requires { 0 < den }
    ensures { result ≡ gained num den cap color }
{
    let product = u64::from(color) * u64::from(num) + u64::from(den / 2);
    (product / u64::from(den)).min(u64::from(cap)) as u32
}

/// Returns the sum of two samples, at most the largest.
pub fn added(max_sample: u32, a: u32, b: u32) -> u32
    ensures { result ≡ added max_sample a b }
{
    a.saturating_add(b).min(max_sample)
}

/// Returns the part of a sample that a weight leaves, rounded to the nearest.
pub fn scaled_by(max_sample: u32, sample: u32, weight: u32) -> u32
    requires some { 0 < max_sample }
    requires weight { weight ≤ max_sample }
    ensures { result ≡ scaled_by max_sample sample weight }
{
    let product = u64::from(sample) * u64::from(weight) + u64::from(max_sample / 2);
    (product / u64::from(max_sample)) as u32
}

/// Returns a sample over another: what the alpha of its pixel leaves of the lower one is added.
pub fn composited(max_sample: u32, alpha: u32, first_row: u32, end_row: u32) -> u32
    requires { 0 < max_sample }
    ensures { result ≡ composited max_sample alpha first_row end_row }
{
    let first_column = max_sample.saturating_sub(alpha);
    added(
        max_sample,
        first_row,
        scaled_by(max_sample, end_row, first_column),
    )
}

/// Returns the mean of four samples, a half rounded up.
pub fn mean_of_four(a: u32, b: u32, c: u32, d: u32) -> u32
    ensures { result ≡ mean_of_four a b c d }
{
    let sum = u64::from(a) + u64::from(b) + u64::from(c) + u64::from(d);
    ((sum + 2) / 4) as u32
}

/// Returns the mean of three samples, rounded to the nearest.
pub fn mean_of_three(a: u32, b: u32, c: u32) -> u32
    ensures { result ≡ mean_of_three a b c }
{
    let sum = u64::from(a) + u64::from(b) + u64::from(c);
    ((sum + 1) / 3) as u32
}

/// Returns a sample of one format at the depth of another, rounded to the nearest.
pub fn rescaled(from: Format, to: Format, sample: u32) -> u32
    requires { sample ≤ max_sample from }
    ensures { result ≡ rescaled (depth from) (depth to) sample }
{
    let (largest, wanted) = (u64::from(from.max()), u64::from(to.max()));
    let sample = u64::from(sample);
    let rescaled = if largest <= wanted {
        sample * (wanted / largest)
    } else {
        (sample * wanted + largest / 2) / largest
    };
    rescaled as u32
}
