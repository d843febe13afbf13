use std::fmt;
use store::{Owned, Store};

// Each byte that differs, with its address, parted by commas, or a hyphen where there is none.
#[derive(Clone, Copy)]
pub struct Changes<'a> {
    pub before: &'a [u8],
    pub after: &'a Owned,
}

impl fmt::Display for Changes<'_> {
    fn fmt<W: fmt::Write>(&self, f: &mut fmt::Formatter<W>) -> fmt::Result {
        // Empty before the first byte that is told.
        let mut between = "";
        for (address, byte) in (0..=u16::MAX).zip(self.before) {
            let now = self.after.read(address);
            if now != *byte {
                write!(f, "{between}{address}:{now:02X}")?;
                between = ",";
            }
        }
        if between.is_empty() {
            f.write_str("-")?;
        }
        Ok(())
    }
}
