//! Lists of names and of samples among fields.

ghost use Rattle.std.specs.Prelude.{◌≡◌, IfOk};
ghost use Rattle.script_fields.specs.Fields.{names_in, naturals_in};

use crate::field::Field;
use alloc_basics::NoMemory;
use pixel_formats::PixelSamples;
use plane_rect::NameList;
use std::alloc::Global;

/// Returns the names among fields, in their order.
///
/// # Errors
///
/// `NoMemory` if memory runs out.
pub fn names_in(alloc: Global, fields: &[Field]) -> Result<NameList, NoMemory>
    ensures { IfOk result (λ names. names ≡ names_in fields.now) }
{
    let mut names = Vec::new(alloc);
    for field in fields {
        if let Field::Name(name) = field {
            names.push(*name)?;
        }
    }
    Ok(NameList::new(names))
}

/// Returns the natural numbers among fields, in their order, as samples.
///
/// # Errors
///
/// As [`names_in`].
pub fn naturals_in(alloc: Global, fields: &[Field]) -> Result<PixelSamples, NoMemory>
    ensures { IfOk result (λ samples. samples ≡ naturals_in fields.now) }
{
    let mut samples = Vec::new(alloc);
    for field in fields {
        if let Field::Natural(sample) = field {
            samples.push(*sample)?;
        }
    }
    Ok(PixelSamples::new(samples))
}
