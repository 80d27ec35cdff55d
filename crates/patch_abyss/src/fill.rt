//! Bytes that are written periodically.

ghost use Rattle.std.specs.Prelude.{◌≡◌, ℕ, ◌+◌, ◌-◌, ◌*◌, ◌%◌, ◌<◌, ◌≤◌, ◌⊎◌, length, slice_index};
ghost use Rattle.patch_abyss.specs.Copied.{HasRows, HasSides, HaveRoom, bytes_of};

use crate::rows::{Rows, copy_rows};

/// A row of bytes whose middle part is another row's.
#[derive(Clone, Copy)]
pub(crate) struct RowParts {
    /// How many bytes the row has.
    pub count: usize,
    /// Where the middle part begins.
    pub start: usize,
    /// Where it ends.
    pub end: usize,
}

/// Writes rows of `count` bytes, each with those of a row of `period` bytes repeated periodically
/// from an index on.
pub(crate) fn wrap_rows(
    to: &mut [u8],
    count: usize,
    from: &[u8],
    period: usize,
    first: usize,
    many: usize,
)
    requires first { first < period }
    requires to { length to.old ≡ many * count }
    requires from { length from.now ≡ many * period }
    ensures len { length to.new ≡ length to.old }
    ensures bytes { (j k : ℕ) → j < many → k < count →
        slice_index to.new (j * count + k) ≡ slice_index from.now (j * period + (first + k) % period) }
{
    let prefix = count.min(period - first);
    let both = count.min(period);
    let (left, right) = (Rows::new(0, count), Rows::new(prefix, count));
    copy_rows(to, left, from, Rows::new(first, period), prefix, many);
    copy_rows(to, right, from, Rows::new(0, period), both - prefix, many);
    if period < count {
        repeat_in_rows(to, left, count, period, many);
    }
}

/// Writes what is left and right of the middle parts of rows, in pixels of so many bytes: on the
/// left one pixel periodically, on the right another.
pub(crate) fn fill_sides(
    to: &mut [u8],
    parts: RowParts,
    from: &[u8],
    leading: Rows,
    trailing: Rows,
    pixel: usize,
    many: usize,
)
    requires some { 0 < pixel }
    requires start { parts.start ≤ parts.end }
    requires end { parts.end ≤ parts.count }
    requires to { length to.old ≡ many * parts.count }
    requires leading { HaveRoom leading pixel many from.now }
    requires trailing { HaveRoom trailing pixel many from.now }
    ensures len { length to.new ≡ length to.old }
    ensures sides { HasSides parts many pixel (bytes_of leading from.now) (bytes_of trailing from.now) to.old to.new }
{
    let (left, right) = (Rows::new(0, parts.count), Rows::new(parts.end, parts.count));
    cycle_rows(to, left, parts.start, from, leading, pixel, many);
    cycle_rows(
        to,
        right,
        parts.count - parts.end,
        from,
        trailing,
        pixel,
        many,
    );
}

/// Writes rows of `count` bytes, each with those of a row of `period` bytes repeated periodically.
fn cycle_rows(
    to: &mut [u8],
    targets: Rows,
    count: usize,
    from: &[u8],
    sources: Rows,
    period: usize,
    many: usize,
)
    requires some { 0 < period }
    requires apart { count ≤ targets.stride }
    requires to { HaveRoom targets count many to.old }
    requires from { HaveRoom sources period many from.now }
    ensures len { length to.new ≡ length to.old }
    ensures rows { HasRows targets count many (λ j k. bytes_of sources from.now j (k % period)) to.old to.new }
{
    if count == 0 {
        return;
    }
    for row in 0..many {
        cycle(
            &mut to[targets.row(row, count)],
            &from[sources.row(row, period)],
        );
    }
}

/// Repeats the first bytes of each row periodically after them, as many as the period.
fn repeat_in_rows(to: &mut [u8], rows: Rows, count: usize, period: usize, many: usize)
    requires some { 0 < period }
    requires apart { count ≤ rows.stride }
    requires to { HaveRoom rows count many to.old }
    ensures len { length to.new ≡ length to.old }
    ensures rows { HasRows rows count many (λ j k. bytes_of rows to.old j (k % period)) to.old to.new }
{
    for row in 0..many {
        repeat(&mut to[rows.row(row, count)], period);
    }
}

/// Writes the bytes of a slice periodically.
pub(crate) fn cycle(to: &mut [u8], from: &[u8])
    requires { 0 < length from.now }
    ensures len { length to.new ≡ length to.old }
    ensures bytes { (i : ℕ) → i < length to.old →
        slice_index to.new i ≡ slice_index from.now (i % length from.now) }
{
    if from.len() == 1 {
        to.fill(from[0]);
        return;
    }
    let prefix = to.len().min(from.len());
    to[..prefix].copy_from_slice(&from[..prefix]);
    repeat(to, from.len());
}

/// Repeats the first bytes periodically after them, as many as the period.
pub(crate) fn repeat(bytes: &mut [u8], period: usize)
    requires { 0 < period }
    ensures len { length bytes.new ≡ length bytes.old }
    ensures bytes { (i : ℕ) → i < length bytes.old →
        slice_index bytes.new i ≡ slice_index bytes.old (i % period) }
{
    let mut done = period;
    while done < bytes.len() {
        let more = done.min(bytes.len() - done);
        copy_prefix(bytes, done, more);
        done += more;
    }
}

/// Copies the first bytes, so many, to an index after them.
fn copy_prefix(bytes: &mut [u8], to: usize, count: usize)
    requires before { count ≤ to }
    requires room { to + count ≤ length bytes.old }
    ensures len { length bytes.new ≡ length bytes.old }
    ensures copied { (i : ℕ) → i < count →
        slice_index bytes.new (to + i) ≡ slice_index bytes.old i }
    ensures kept { (i : ℕ) → (i < to) ⊎ (to + count ≤ i) →
        slice_index bytes.new i ≡ slice_index bytes.old i }
{
    let (prefix, back) = bytes.split_at_mut(to);
    back[..count].copy_from_slice(&prefix[..count]);
}
