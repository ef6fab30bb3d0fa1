/// The checksum with one more value in it.
pub fn with(sum: u64, value: u64) -> u64 {
    sum.rotate_left(5).wrapping_add(value)
}

/// The low 64 bits.
pub fn low(value: u128) -> u64 {
    (value & 0xffff_ffff_ffff_ffff) as u64
}
