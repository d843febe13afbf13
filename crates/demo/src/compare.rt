use std::num::saturating_f64_to_i64;

// The sample's calibration: a height is the count's distance from 2048, times 13, by 8.
const GAIN: f64 = 1.625;

const ZERO: i64 = 2048;

// The bytes of each halfword.
fn halfwords(bytes: &[u8]) -> &[[u8; 2]] {
    bytes.as_chunks().0
}

fn value(halfword: [u8; 2]) -> i16 {
    i16::from_be_bytes(halfword)
}

// The count that a float division with rounding makes of a height.
fn rounded_count(height: i16) -> i64 {
    let distance = (f64::from(height) / GAIN).round();
    saturating_f64_to_i64(distance).saturating_add(ZERO)
}

// How many halfwords two lists have in common places.
pub fn in_common(counts: &[u8], recovered: &[u8]) -> usize {
    halfwords(counts).len().min(halfwords(recovered).len())
}

// How many of those differ.
pub fn differing(counts: &[u8], recovered: &[u8]) -> usize {
    halfwords(counts)
        .iter()
        .zip(halfwords(recovered))
        .filter(|(count, back)| count != back)
        .count()
}

// How many counts a float division with rounding gets wrong.
pub fn float_differing(counts: &[u8], heights: &[u8]) -> usize {
    halfwords(counts)
        .iter()
        .zip(halfwords(heights))
        .filter(|(count, height)| i64::from(value(**count)) != rounded_count(value(**height)))
        .count()
}
