//! The raw bytes of samples.

ghost use Rattle.std.specs.Prelude.{◌≡◌, ◌++◌, All, IfOk};
ghost use Rattle.std.specs.List.{flat_map};
ghost use Rattle.pixel_formats.specs.Format.{depth};
ghost use Rattle.model_images.specs.Raw.{sample_bytes};
ghost use Rattle.patch_abyss.specs.Samples.{IsSampleOf};

use alloc_basics::NoMemory;
use byteorder::{ByteOrder, LittleEndian};
use pixel_formats::Format;
use std::alloc::Global;

/// Returns the raw bytes of a pixel of these samples, in their order.
///
/// # Errors
///
/// `NoMemory` if memory runs out.
pub fn raw_pixel(alloc: Global, format: Format, samples: &[u32]) -> Result<Vec<u8>, NoMemory>
    requires { All (IsSampleOf format) samples.now }
    ensures { IfOk result (λ bytes. bytes.items ≡ flat_map (sample_bytes (depth format)) samples.now) }
{
    let mut bytes = Vec::new(alloc);
    for sample in samples {
        push_sample(&mut bytes, format, *sample)?;
    }
    Ok(bytes)
}

/// Adds the raw bytes of a sample.
fn push_sample(bytes: &mut Vec<u8>, format: Format, sample: u32) -> Result<(), NoMemory>
    requires { IsSampleOf format sample }
    ensures { IfOk result (λ _. bytes.new.items ≡ bytes.old.items ++ sample_bytes (depth format) sample) }
{
    let mut encoded = [0; 4];
    LittleEndian::write_u32(&mut encoded, sample);
    bytes.extend_from_slice(&encoded[..format.depth() as usize])?;
    Ok(())
}
