//! Pictures that are written as raw bytes.

ghost use Rattle.std.specs.Prelude.{◌≡◌, [], ◌∷◌, ◌-◌, ℕ, IfSome, List, Option, length, ⊤};
ghost use Rattle.model_images.specs.{FromRaw.byte_count, Image.Image};
ghost use Rattle.plane_rect.specs.Tile.{strip_rectangles};
ghost use Rattle.run_lines.specs.Causes.{HasShelfCause};
ghost use Rattle.run_lines.specs.PictureBytes.{HaveBands, LeavesBands, LeavesBytes};
ghost use Rattle.model_runs.specs.Events.{Writes, events_alone};
ghost use Rattle.strip_patches.specs.Shown.{Shows, picture_box, picture_format};
ghost use Rattle.strip_patches.specs.Pictures.{HasRows};

use crate::events::write_file;
use alloc_basics::NoMemory;
use model_runs::End;
use outside_io::{Bands, BandsAnswer, Shelf};
use script_read::FileName;
use std::alloc::Global;
use std::mem;
use strip_patches::{Picture, TiledPatch};

/// Returns how many bytes a picture's samples have.
pub(crate) fn picture_bytes(picture: &Picture) -> usize
    ensures { result ≡ byte_count (picture_box picture.now) (picture_format picture.now) }
{
    (picture.rect().area() * u64::from(picture.format().pixel_bytes())) as usize
}

/// Makes a file hold the raw bytes of a picture. Tiles are written by bands of rows, of which one is in memory at a time.
pub(crate) fn write_picture<F: Shelf>(
    alloc: Global,
    picture: Picture,
    file: &FileName,
    shelf: &mut F,
) -> Result<(), End>
    ensures leaves { (known : Option Image) (text : Option (List ℕ)) →
        IfSome known (λ image. Shows image (picture_box picture) picture) →
        LeavesBytes known (picture_box picture) (picture_format picture) (λ bytes. events_alone (Writes file.now bytes ∷ [])) result
        (record { files = F.files shelf.old; text = text }) (record { files = F.files shelf.new; text = text }) }
    ensures cause { HasShelfCause F.read_faults F.write_faults result shelf.old shelf.new }
{
    match picture {
        Picture::Patch(patch) => write_file(patch.raw_bytes(), file, shelf),
        Picture::Tiles(tiled) => write_bands(alloc, &tiled, file, shelf),
    }
}

/// Makes a file hold the bands of tiles, from the top.
fn write_bands<F: Shelf>(
    alloc: Global,
    tiled: &TiledPatch,
    file: &FileName,
    shelf: &mut F,
) -> Result<(), End>
    ensures leaves { (known : Option Image) (text : Option (List ℕ)) →
        IfSome known (λ image. HasRows image (length (strip_rectangles tiled.now.rect)) tiled.now) →
        LeavesBands known (strip_rectangles tiled.now.rect) tiled.now.format (λ bytes. events_alone (Writes file.now bytes ∷ [])) result
        (record { files = F.files shelf.old; text = text }) (record { files = F.files shelf.new; text = text }) }
    ensures cause { HasShelfCause F.read_faults F.write_faults result shelf.old shelf.new }
{
    let mut bands = TiledBands {
        alloc,
        tiled,
        band: Vec::new(alloc),
        count: 0,
    };
    match shelf.write_bands(alloc, file.as_str(), &mut bands) {
        Ok(()) => Ok(()),
        Err(BandsAnswer::Failed) => Err(End::WriteFault),
        Err(BandsAnswer::NoMemory) => Err(End::NoMemory),
        Err(BandsAnswer::Refused(NoMemory)) => Err(End::NoMemory),
    }
}

/// The bands of tiles, from the top, each made in the memory of the one above.
#[derive(Drop)]
struct TiledBands<'a> {
    alloc: Global,
    tiled: &'a TiledPatch,
    band: Vec<u8>,
    /// How many bands were made.
    count: u32,
}

impl Bands for TiledBands<'_> {
    type Refused = NoMemory;

    ghost made = { λ bands. bands.band.items };

    ghost may_give = { λ bands bytes. HaveBands bands.tiled.now bands.count bytes };

    ghost left = { λ bands. length (strip_rectangles bands.tiled.now.rect) - bands.count };

    ghost refuses = { λ _ _. ⊤ };

    fn next(&mut self) -> Result<bool, NoMemory> {
        if self.count >= self.tiled.bands() {
            return Ok(false);
        }
        let memory = mem::replace(&mut self.band, Vec::new(self.alloc));
        let band = self.tiled.band(self.alloc, memory, self.count)?;
        self.band = band.into_raw();
        self.count += 1;
        Ok(true)
    }

    fn band(&self) -> &[u8] {
        &self.band
    }
}
