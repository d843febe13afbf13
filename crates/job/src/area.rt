ghost use Rattle.std.specs.Prelude.{◌≡◌, ◌*◌};
ghost use Rattle.job.specs.Fields.{area_at};

/// So many halfwords of the store, from an address on.
#[derive(Clone, Copy, PartialEq, Eq, Debug)]
pub struct Area {
    pub address: u16,
    pub halfwords: u16,
}

impl Area {
    /// None where it does not lie in the store whole.
    pub fn new(address: u16, halfwords: u16) -> Option<Area>
        ensures { result ≡ area_at address halfwords }
    {
        let end = u32::from(address) + 2 * u32::from(halfwords);
        (end <= 65536).then_some(Area { address, halfwords })
    }

    pub fn bytes(&self) -> usize
        ensures { result ≡ 2 * self.now.halfwords }
    {
        2 * usize::from(self.halfwords)
    }
}
