ghost use Rattle.store.specs.Bulk.{StopsShort, taken, written};
ghost use Rattle.std.specs.Prelude.{◌≡◌, ◌++◌, length, OnErr, OnOk};

use crate::store::Store;
use std::alloc::AllocError;

// Here and below the address is counted beside the bytes, since it goes round at 65,535: of an enumerated place it would be computed anew
// for each byte, by a remainder and a sum.

/// Bytes into a store, from an address on.
pub fn write_all<S: Store>(store: &mut S, address: u16, bytes: &[u8])
    ensures bytes { S.Store.bytes store.new ≡ written (S.Store.bytes store.old) address bytes.now }
    ensures footing { S.Store.footing store.new ≡ S.Store.footing store.old }
{
    let mut to = address;
    for byte in bytes {
        store.write(to, *byte);
        to = to.wrapping_add(1);
    }
}

/// So many bytes of a store, from an address on, at the end of a vector.
pub fn append_all<S: Store>(
    store: &S,
    address: u16,
    length: usize,
    out: &mut Vec<u8>,
) -> Result<(), AllocError>
    ensures ok { OnOk result
        (out.new.items ≡ out.old.items ++ taken (S.Store.bytes store.now) address length) }
    ensures err { OnErr result
        (StopsShort out.old.items out.new.items (S.Store.bytes store.now) address length) }
{
    let mut from = address;
    for _ in 0..length {
        out.push(store.read(from))?;
        from = from.wrapping_add(1);
    }
    Ok(())
}

/// A buffer filled with the bytes of a store, from an address on.
pub fn read_all<S: Store>(store: &S, address: u16, buffer: &mut [u8])
    ensures { buffer.new ≡ taken (S.Store.bytes store.now) address (length buffer.old) }
{
    let mut next = address;
    for byte in buffer.iter_mut() {
        *byte = store.read(next);
        next = next.wrapping_add(1);
    }
}
