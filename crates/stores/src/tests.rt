use crate::image::Image;
use crate::plain::Plain;
use std::alloc::{AllocError, Global};
use std::process::Abort;
use std::test::Fail;
use store::{Store, check_size};

pub(crate) fn filled(alloc: Global, byte: u8) -> Result<Vec<u8>, AllocError> {
    vec![in alloc; byte; 65536]
}

fn image_of<'a>(rt: &impl Abort, image: &'a [u8], work: &'a mut [u8]) -> Image<'a> {
    match (check_size(image), check_size(work)) {
        (Ok(()), Ok(())) => Image::new(image, work),
        _ => panic!(rt; "a store's size"),
    }
}

pub(crate) fn plain<'a>(rt: &impl Abort, memory: &'a mut [u8]) -> Plain<'a> {
    match check_size(memory) {
        Ok(()) => Plain::new(memory),
        Err(_unmade) => panic!(rt; "a store's size"),
    }
}

// The first and the last byte of page 1, with their neighbours.
pub(crate) fn write_both(store: &mut impl Store) {
    store.write(1024, 1);
    store.write(2047, 2);
}

pub(crate) fn around(store: &impl Store) -> [u8; 6] {
    [1023, 1024, 1025, 2046, 2047, 2048].map(|at| store.read(at))
}

// The halfwords of the same bytes, by either address, and the last of all.
pub(crate) fn halves(store: &impl Store) -> [[u8; 2]; 6] {
    [1023, 1024, 1025, 2046, 2047, 65535].map(|at| store.read_half(at))
}

pub(crate) const HALVES: [[u8; 2]; 6] = [[7, 7], [1, 7], [1, 7], [7, 2], [7, 2], [7, 7]];

fn at(memory: &[u8], places: [usize; 3]) -> [u8; 3] {
    places.map(|place| memory.get(place).copied().unwrap_or(0))
}

#[test]
fn a_page_of_lent_memory(rt: HostRuntime) -> Result<(), Fail> {
    let mut memory = filled(rt.alloc(), 7)?;
    let mut store = plain(&rt, &mut memory);
    write_both(&mut store);
    assert_eq!(rt; around(&store), [7, 1, 7, 7, 2, 7]);
    assert_eq!(rt; halves(&store), HALVES);
    assert_eq!(rt; at(&memory, [1023, 1024, 1025]), [7, 1, 7]);
    assert_eq!(rt; at(&memory, [2046, 2047, 2048]), [7, 2, 7]);
    Ok(())
}

// The working memory gets the whole page and nothing else, and the image nothing.
#[test]
fn a_page_of_an_image(rt: HostRuntime) -> Result<(), Fail> {
    let image = filled(rt.alloc(), 7)?;
    let mut work = filled(rt.alloc(), 9)?;
    let mut store = image_of(&rt, &image, &mut work);
    write_both(&mut store);
    assert_eq!(rt; around(&store), [7, 1, 7, 7, 2, 7]);
    assert_eq!(rt; halves(&store), HALVES);
    assert_eq!(rt; &store.copied()[0..3], [false, true, false].as_slice());
    assert_eq!(rt; at(&work, [1023, 1024, 1025]), [9, 1, 7]);
    assert_eq!(rt; at(&work, [2046, 2047, 2048]), [7, 2, 9]);
    assert!(rt; image.iter().all(|byte| *byte == 7));
    Ok(())
}

#[test]
fn sizes_that_are_none(rt: HostRuntime) -> Result<(), Fail> {
    let mut memory = filled(rt.alloc(), 0)?;
    assert!(rt; check_size(&memory).is_ok());
    memory.push(0)?;
    assert!(rt; check_size(&memory).is_err());
    assert!(rt; check_size(&vec![in rt.alloc(); 0u8; 65535]?).is_err());
    Ok(())
}
