//! Planes with some channels from those with others.

ghost use Rattle.std.specs.Prelude.{◌≡◌, ℕ, ◌+◌, ◌<◌, ◌≤◌};
ghost use Rattle.pixel_formats.specs.Sample.{max_sample_of, rescaled};
ghost use Rattle.simd_samples.specs.Lanes.{Hold};
ghost use Rattle.simd_pixels.specs.Components.{component_for, components_of_gray, components_of_gray_alpha, components_of_colors, components_of_colors_alpha};
ghost use Rattle.simd_pixels.specs.ComponentsLaws.{components_of_gray-same, components_of_gray_alpha-same, components_of_colors-same, components_of_colors_alpha-same};

use crate::planes::{Colors, ColorsAlpha, Gray, GrayAlpha, Planes};
use simd_samples::{Lanes, Rescale};

/// Planes that give the parts of their pixels: gray, three colors and alpha, at their own depth.
pub trait Components<L: Lanes>: Planes<L> {
    /// The parts of a pixel, where the largest sample is given.
    ghost components: { ℕ → (ℕ → ℕ) → ℕ → ℕ };

    /// Returns the gray of each pixel; of colors it is their mean, rounded to the nearest.
    fn gray(self) -> L
        ensures { Hold (L.lane result) (λ k. components (max_sample_of L.depth) (λ i. Self.sample self i k) 0) };

    /// Returns red, green and blue of each pixel; gray counts as all three.
    fn colors(self) -> (L, L, L)
        ensures red { Hold (L.lane result.0) (λ k. components (max_sample_of L.depth) (λ i. Self.sample self i k) 1) }
        ensures green { Hold (L.lane result.1) (λ k. components (max_sample_of L.depth) (λ i. Self.sample self i k) 2) }
        ensures blue { Hold (L.lane result.2) (λ k. components (max_sample_of L.depth) (λ i. Self.sample self i k) 3) };

    /// Returns the alpha of each pixel; without one it is the largest sample.
    fn alpha(self) -> L
        ensures { Hold (L.lane result) (λ k. components (max_sample_of L.depth) (λ i. Self.sample self i k) 4) };

    ghost components_of_pixel: { (max_sample : ℕ) (p q : ℕ → ℕ) → ((i : ℕ) → i < Self.channels → p i ≡ q i) → (n : ℕ) → n ≤ 4 → components max_sample p n ≡ components max_sample q n };
}

/// Planes that are made of the parts of others.
pub trait FromComponents<L: Lanes>: Planes<L> {
    /// Returns the planes at the depth of `L`, of pixels with other channels at another depth. Samples are
    /// rounded to the nearest.
    fn from_components<S: Rescale<L>, P: Components<S>>(pixels: P) -> Self
        ensures { (k i : ℕ) → k < 16 → i < Self.channels
            → Self.sample result i k ≡ rescaled S.depth L.depth (P.components (max_sample_of S.depth) (λ j. P.sample pixels j k) (component_for Self.channels i)) };
}

impl<L: Lanes> Components<L> for Gray<L> {
    ghost components = { components_of_gray };

    #[inline(always)]
    fn gray(self) -> L {
        self.gray
    }

    #[inline(always)]
    fn colors(self) -> (L, L, L) {
        (self.gray, self.gray, self.gray)
    }

    #[inline(always)]
    fn alpha(self) -> L {
        L::max_sample()
    }

    ghost components_of_pixel = { components_of_gray-same };
}

impl<L: Lanes> Components<L> for GrayAlpha<L> {
    ghost components = { λ max_sample. components_of_gray_alpha };

    #[inline(always)]
    fn gray(self) -> L {
        self.gray
    }

    #[inline(always)]
    fn colors(self) -> (L, L, L) {
        (self.gray, self.gray, self.gray)
    }

    #[inline(always)]
    fn alpha(self) -> L {
        self.alpha
    }

    ghost components_of_pixel = { components_of_gray_alpha-same };
}

impl<L: Lanes> Components<L> for Colors<L> {
    ghost components = { components_of_colors };

    #[inline(always)]
    fn gray(self) -> L {
        self.red.mean_of_three(self.green, self.blue)
    }

    #[inline(always)]
    fn colors(self) -> (L, L, L) {
        (self.red, self.green, self.blue)
    }

    #[inline(always)]
    fn alpha(self) -> L {
        L::max_sample()
    }

    ghost components_of_pixel = { components_of_colors-same };
}

impl<L: Lanes> Components<L> for ColorsAlpha<L> {
    ghost components = { λ max_sample. components_of_colors_alpha };

    #[inline(always)]
    fn gray(self) -> L {
        self.red.mean_of_three(self.green, self.blue)
    }

    #[inline(always)]
    fn colors(self) -> (L, L, L) {
        (self.red, self.green, self.blue)
    }

    #[inline(always)]
    fn alpha(self) -> L {
        self.alpha
    }

    ghost components_of_pixel = { components_of_colors_alpha-same };
}

impl<L: Lanes> FromComponents<L> for Gray<L> {
    #[inline(always)]
    fn from_components<S: Rescale<L>, P: Components<S>>(pixels: P) -> Self {
        Gray {
            gray: pixels.gray().rescale(),
        }
    }
}

impl<L: Lanes> FromComponents<L> for GrayAlpha<L> {
    #[inline(always)]
    fn from_components<S: Rescale<L>, P: Components<S>>(pixels: P) -> Self {
        GrayAlpha {
            gray: pixels.gray().rescale(),
            alpha: pixels.alpha().rescale(),
        }
    }
}

impl<L: Lanes> FromComponents<L> for Colors<L> {
    #[inline(always)]
    fn from_components<S: Rescale<L>, P: Components<S>>(pixels: P) -> Self {
        let (red, green, blue) = pixels.colors();
        Colors {
            red: red.rescale(),
            green: green.rescale(),
            blue: blue.rescale(),
        }
    }
}

impl<L: Lanes> FromComponents<L> for ColorsAlpha<L> {
    #[inline(always)]
    fn from_components<S: Rescale<L>, P: Components<S>>(pixels: P) -> Self {
        let (red, green, blue) = pixels.colors();
        ColorsAlpha {
            red: red.rescale(),
            green: green.rescale(),
            blue: blue.rescale(),
            alpha: pixels.alpha().rescale(),
        }
    }
}
