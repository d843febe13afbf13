use crate::hex::hex_byte;
use crate::unread::Unread;
use crate::values::half;

// An address and bytes, parted by a colon; the bytes go into the image.
fn put_part(image: &mut [u8], part: &[u8]) -> Result<(), Unread> {
    let mut words = part.split(|b| *b == b':');
    let address = half(words.next().ok_or(Unread::NoCase)?)?;
    let digits = words.next().ok_or(Unread::NoCase)?;
    let mut places = image.iter_mut().skip(usize::from(address));
    for pair in digits.chunks(2) {
        *places.next().ok_or(Unread::NoCase)? = hex_byte(pair)?;
    }
    Ok(())
}

// Parts between commas, fewer than 65,536, or a hyphen where there is none.
pub fn put_parts(image: &mut [u8], word: &[u8]) -> Result<(), Unread> {
    if word.split(|b| *b == b',').nth(65535).is_some() {
        return Err(Unread::NoCase);
    }
    match word {
        b"-" => Ok(()),
        _ => word
            .split(|b| *b == b',')
            .try_for_each(|part| put_part(image, part)),
    }
}
