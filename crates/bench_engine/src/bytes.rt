//! Bytes that are worked on.

ghost use Rattle.std.specs.Prelude.{◌≡◌, IfSome, length};

use std::alloc::Global;

/// Returns so many bytes without a pattern: the high bytes of a sequence in which each number is the one before it times
/// 1,664,525 and 1,013,904,223 more. None if memory runs out.
pub fn noise(alloc: Global, count: usize) -> Option<Vec<u8>>
    ensures { IfSome result (λ bytes. length bytes.items ≡ count) }
{
    let mut bytes = vec![in alloc; 0; count].ok()?;
    let mut number = 0u32;
    for byte in &mut bytes {
        number = number.wrapping_mul(1_664_525).wrapping_add(1_013_904_223);
        *byte = number.to_le_bytes()[3];
    }
    Some(bytes)
}

/// Changes the first byte, so that no two calls in a row find the same.
pub fn mark(bytes: &mut [u8]) {
    if let Some(first) = bytes.first_mut() {
        *first = first.wrapping_add(1);
    }
}

/// Returns the last byte.
pub fn last(bytes: &[u8]) -> u64 {
    bytes.last().copied().map_or(0, u64::from)
}
