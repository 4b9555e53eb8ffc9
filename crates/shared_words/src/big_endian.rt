//! Numbers of 32 and of 64 bits at the front of a text, the most significant byte first.
ghost use Rattle.std.specs.Prelude.{◌≡◌, ◌<◌, ◌^◌, ◌++◌, length, IfSome, IfNone};
ghost use Rattle.std.specs.Int.{to_be_bytes, w32, w64};

/// The number that the first 4 bytes are, and what stands behind them; none where there are fewer.
/// `u32::to_be_bytes` gives these bytes.
pub fn split_u32(text: &[u8]) -> Option<(u32, &[u8])>
    ensures some { IfSome result (λ found.
        (found.0 < 2 ^ 32) × (text.now ≡ to_be_bytes w32 found.0 ++ found.1.now)) }
    ensures none { IfNone result (length text.now < 4) }
{
    let (field, behind) = text.split_first_chunk::<4>()?;
    Some((u32::from_be_bytes(*field), behind))
}

/// The number that the first 8 bytes are, and what stands behind them; none where there are fewer.
/// `u64::to_be_bytes` gives these bytes.
pub fn split_u64(text: &[u8]) -> Option<(u64, &[u8])>
    ensures some { IfSome result (λ found.
        (found.0 < 2 ^ 64) × (text.now ≡ to_be_bytes w64 found.0 ++ found.1.now)) }
    ensures none { IfNone result (length text.now < 8) }
{
    let (field, behind) = text.split_first_chunk::<8>()?;
    Some((u64::from_be_bytes(*field), behind))
}
