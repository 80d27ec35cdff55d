//! The bytes of extents, on a disk.

ghost use Rattle.std.specs.Prelude.{◌≡◌, ◌+◌, ◌*◌, ◌/◌, ◌<◌, ◌≤◌, ◌^◌, IfErr, IfSome, OnOk, length, take};
ghost use Rattle.tile_cow.specs.Tile.{IsTileLength};
ghost use Rattle.swap_store.specs.Content.{BeginsAt, bytes_in};
ghost use Rattle.swap_store.specs.{Run.blocks_for, Store.HasDiskCause};
ghost use Rattle.outside_io.specs.Swap.{UnchangedOutside, bytes_of_blocks};

use crate::block_map::{BLOCK_BYTES, blocks_for};
use crate::disk_answers::refused_by_disk;
use chain_owners::SwapRefused;
use outside_io::SwapDisk;

/// Writes the whole blocks of these bytes to the disk, from block `first` on.
fn write_whole_blocks<D: SwapDisk>(
    disk: &mut D,
    first: u32,
    bytes: &[u8],
) -> Result<(), SwapRefused>
    requires size { length bytes.now ≤ 65536 }
    requires known { first + length bytes.now / 4096 ≤ D.block_count disk.old }
    requires bound { first + length bytes.now / 4096 ≤ 2 ^ 20 }
    ensures written { OnOk result (IfSome (D.blocks disk.new)
        (λ blocks. bytes_of_blocks blocks first (length bytes.now / 4096) ≡ take (4096 * (length bytes.now / 4096)) bytes.now)) }
    ensures others { UnchangedOutside first (length bytes.now / 4096) (D.blocks disk.old) (D.blocks disk.new) }
    ensures cause { IfErr result (HasDiskCause (D.faults disk.old) (D.faults disk.new)) }
    ensures later { D.faults disk.old ≤ D.faults disk.new }
    ensures block_count { D.block_count disk.new ≡ D.block_count disk.old }
    ensures loans { D.loans disk.new ≡ D.loans disk.old }
{
    let end = BLOCK_BYTES * (bytes.len() / BLOCK_BYTES);
    disk.write_blocks(first, &bytes[..end])
        .map_err(refused_by_disk)
}

/// Makes a block begin with these bytes, and have zeros after them.
fn pad(block: &mut [u8], bytes: &[u8])
    requires { length bytes.now ≤ length block.old }
    ensures { take (length bytes.now) block.new ≡ bytes.now }
{
    block[..bytes.len()].copy_from_slice(bytes);
    block[bytes.len()..].fill(0);
}

/// Writes these bytes to block `n`, and zeros after them. They are put together in `spare`.
fn write_padded<D: SwapDisk>(
    disk: &mut D,
    n: u32,
    bytes: &[u8],
    spare: &mut [u8],
) -> Result<(), SwapRefused>
    requires size { length bytes.now ≤ 4096 }
    requires spare { 4096 ≤ length spare.old }
    requires known { n < D.block_count disk.old }
    ensures written { OnOk result (IfSome (D.blocks disk.new) (BeginsAt n bytes.now)) }
    ensures others { UnchangedOutside n 1 (D.blocks disk.old) (D.blocks disk.new) }
    ensures cause { IfErr result (HasDiskCause (D.faults disk.old) (D.faults disk.new)) }
    ensures later { D.faults disk.old ≤ D.faults disk.new }
    ensures block_count { D.block_count disk.new ≡ D.block_count disk.old }
    ensures loans { D.loans disk.new ≡ D.loans disk.old }
{
    let block = &mut spare[..BLOCK_BYTES];
    pad(block, bytes);
    disk.write_block(n, block).map_err(refused_by_disk)
}

/// Writes these bytes to the disk, from block `first` on. What the last block has after them is
/// zero; it is put together in `spare`.
pub(crate) fn write_extent<D: SwapDisk>(
    disk: &mut D,
    first: u32,
    bytes: &[u8],
    spare: &mut [u8],
) -> Result<(), SwapRefused>
    requires size { IsTileLength (length bytes.now) }
    requires spare { length spare.old ≡ 65536 }
    requires known { first + blocks_for (length bytes.now) ≤ D.block_count disk.old }
    requires bound { first + blocks_for (length bytes.now) ≤ 2 ^ 20 }
    ensures written { OnOk result (IfSome (D.blocks disk.new)
        (λ blocks. bytes_in blocks (record { first = first; len = length bytes.now }) ≡ bytes.now)) }
    ensures others { UnchangedOutside first (blocks_for (length bytes.now)) (D.blocks disk.old) (D.blocks disk.new) }
    ensures cause { IfErr result (HasDiskCause (D.faults disk.old) (D.faults disk.new)) }
    ensures later { D.faults disk.old ≤ D.faults disk.new }
    ensures block_count { D.block_count disk.new ≡ D.block_count disk.old }
    ensures loans { D.loans disk.new ≡ D.loans disk.old }
{
    write_whole_blocks(disk, first, bytes)?;
    let whole = bytes.len() / BLOCK_BYTES;
    let rest = &bytes[BLOCK_BYTES * whole..];
    if rest.is_empty() {
        return Ok(());
    }
    write_padded(disk, first + whole as u32, rest, spare)
}

/// Reads the blocks that `len` bytes take from the disk, from block `first` on. `into` begins with
/// their bytes then.
pub(crate) fn read_extent<D: SwapDisk>(
    disk: &mut D,
    first: u32,
    len: u32,
    into: &mut [u8],
) -> Result<(), SwapRefused>
    requires size { IsTileLength len }
    requires room { length into.old ≡ 65536 }
    requires known { first + blocks_for len ≤ D.block_count disk.old }
    requires bound { first + blocks_for len ≤ 2 ^ 20 }
    ensures read { OnOk result (IfSome (D.blocks disk.old)
        (λ blocks. take len into.new ≡ bytes_in blocks (record { first = first; len = len }))) }
    ensures cause { IfErr result (HasDiskCause (D.faults disk.old) (D.faults disk.new)) }
    ensures later { D.faults disk.old ≤ D.faults disk.new }
    ensures blocks { D.blocks disk.new ≡ D.blocks disk.old }
    ensures block_count { D.block_count disk.new ≡ D.block_count disk.old }
    ensures loans { D.loans disk.new ≡ D.loans disk.old }
{
    let end = BLOCK_BYTES * blocks_for(len) as usize;
    disk.read_blocks(first, &mut into[..end])
        .map_err(refused_by_disk)
}
