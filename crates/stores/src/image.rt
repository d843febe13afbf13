ghost use Rattle.std.specs.Prelude.{◌≡◌, ◌<◌, length, slice_set};

use crate::lent::{copy_page, put};
use store::Store;

/// A store over an image that is only read, and as much memory to write: a page of the image is copied there before its first byte is
/// written.
#[derive(Drop)]
pub struct Image<'a> {
    image: &'a [u8],
    work: &'a mut [u8],
    copied: [bool; 64],
    ghost paged: { length copied ≡ 64 },
    ghost read_only: { length image.now ≡ 65536 },
    ghost full: { length work.now ≡ 65536 },
}

impl<'a> Image<'a> {
    ghost use Rattle.stores.specs.Image.{bytes_of, layers_of, new_layers, with_own_page};

    /// Needs `check_size` passed by both.
    pub fn new(image: &'a [u8], work: &'a mut [u8]) -> Image<'a>
        requires { (length image.now ≡ 65536) × (length work.old ≡ 65536) }
        ensures layers { layers_of result ≡ new_layers image.now work.old }
        ensures bytes { bytes_of (layers_of result) ≡ image.now }
        ensures image { result.image ≡ image.entry }
        ensures work { result.work ≡ work.entry }
    {
        Image {
            image,
            work,
            copied: [false; 64],
        }
    }

    /// Which pages were copied: what they hold is in the working memory, and the others are as the image has them.
    pub fn copied(&self) -> [bool; 64]
        ensures { result ≡ (layers_of self.now).copied }
    {
        self.copied
    }

    // The page is copied, unless it is already.
    fn own(&mut self, page: usize)
        requires { page < 64 }
        ensures layers { layers_of self.new ≡ with_own_page (layers_of self.old) page }
        ensures same_work { self.new.work.ghost_name ≡ self.old.work.ghost_name }
    {
        if !self.copied[page] {
            copy_page(self.work, self.image, page);
            self.copied[page] = true;
        }
    }
}

impl Store for Image<'_> {
    ghost use Rattle.stores.specs.Image.{bytes_of, footing_of, layers_of, length-bytes_of, with_byte};

    ghost bytes = { λ s. bytes_of (layers_of s) };

    ghost footing = { footing_of };

    ghost full = { λ s. length-bytes_of (layers_of s) };

    fn read(&self, address: u16) -> u8 {
        let at = usize::from(address);
        if self.copied[at / 1024] {
            self.work[at]
        } else {
            self.image[at]
        }
    }

    // No halfword lies across two pages.
    fn read_half(&self, address: u16) -> [u8; 2] {
        let at = usize::from(address - address % 2);
        let page = at / 1024;
        if self.copied[page] {
            [self.work[at], self.work[at + 1]]
        } else {
            [self.image[at], self.image[at + 1]]
        }
    }

    // Beside what every store promises, `layers`: the page is copied and no other, and what else the working memory has stays.
    fn write(&mut self, address: u16, byte: u8)
        ensures bytes { bytes_of (layers_of self.new)
            ≡ slice_set (bytes_of (layers_of self.old)) address byte }
        ensures footing { footing_of self.new ≡ footing_of self.old }
        ensures layers { layers_of self.new ≡ with_byte (layers_of self.old) address byte }
    {
        self.own(usize::from(address) / 1024);
        put(self.work, address, byte);
    }
}
