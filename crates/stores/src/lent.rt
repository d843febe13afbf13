ghost use Rattle.stores.specs.Image.{with_page};
ghost use Rattle.std.specs.Prelude.{◌≡◌, ◌<◌, length, slice_set};

// Writes into memory that the caller lends are made here, by functions that take it as a slice: that the slice keeps its size is
// then known where it is a store's.

pub(crate) fn put(bytes: &mut [u8], address: u16, byte: u8)
    requires { address < length bytes.old }
    ensures { bytes.new ≡ slice_set bytes.old address byte }
{
    bytes[usize::from(address)] = byte;
}

// A page of 1,024 bytes, from one memory to the same place of another.
pub(crate) fn copy_page(to: &mut [u8], from: &[u8], page: usize)
    requires { (length to.old ≡ 65536) × ((length from.now ≡ 65536) × (page < 64)) }
    ensures size { length to.new ≡ 65536 }
    ensures copied { to.new ≡ with_page to.old from.now page }
{
    let start = page * 1024;
    to[start..start + 1024].copy_from_slice(&from[start..start + 1024]);
}
