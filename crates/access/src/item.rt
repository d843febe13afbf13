ghost use Rattle.access.specs.Access.{aligned, checked, held, item_may, item_read, sight_of, size};
ghost use Rattle.access.specs.declared.item.Item.{Item};
ghost use Rattle.access.specs.declared.kind.Use.TheVariants.{Write};
ghost use Rattle.std.specs.Prelude.{◌≡◌, ◌≤◌, ℕ};

use crate::reach::Reach;
use crate::stop::Denial;
use crate::view::View;
use store::Store;

/// What an instruction works on in the store.
#[derive(Clone, Copy, Debug, PartialEq, Eq)]
pub enum Item {
    Byte,
    Halfword,
    Fullword,
}

impl Item {
    /// How many bytes it has.
    #[inline(always)]
    pub fn size(self) -> u16
        ensures is { result ≡ size self }
        ensures within { result ≤ 4 }
    {
        match self {
            Item::Byte => 1,
            Item::Halfword => 2,
            Item::Fullword => 4,
        }
    }

    /// The address with its lowest bits taken as 0.
    #[inline(always)]
    pub fn align(self, at: u16) -> u16
        ensures { result ≡ aligned self at }
    {
        match self {
            Item::Byte => at,
            Item::Halfword => at - at % 2,
            Item::Fullword => at - at % 4,
        }
    }
}

/// The number that an item holds, as the program has it: a u8, a u16 or a u32.
pub trait Held: Copy {
    ghost ITEM: { Item };

    const ITEM: Item;

    ghost bits: { Self → ℕ };

    fn read<S: Store>(view: &View<S>, at: u16) -> Result<Self, Denial>
        ensures { held bits result ≡ item_read ITEM (sight_of view.now).look at };

    fn may_write(reach: &Reach, at: u16) -> Result<(), Denial>
        ensures { result ≡ item_may ITEM (checked reach.now Write) at };
}

impl Held for u8 {
    ghost ITEM = { Item.Byte };

    const ITEM: Item = Item::Byte;

    ghost bits = { λ value. value };

    #[inline(always)]
    fn read<S: Store>(view: &View<S>, at: u16) -> Result<u8, Denial> {
        view.byte(at)
    }

    #[inline(always)]
    fn may_write(reach: &Reach, at: u16) -> Result<(), Denial> {
        reach.may_write(at)
    }
}

impl Held for u16 {
    ghost ITEM = { Item.Halfword };

    const ITEM: Item = Item::Halfword;

    ghost bits = { λ value. value };

    #[inline(always)]
    fn read<S: Store>(view: &View<S>, at: u16) -> Result<u16, Denial> {
        view.pair(at - at % 2)
    }

    #[inline(always)]
    fn may_write(reach: &Reach, at: u16) -> Result<(), Denial> {
        reach.may_write_pair(at - at % 2)
    }
}

impl Held for u32 {
    ghost ITEM = { Item.Fullword };

    const ITEM: Item = Item::Fullword;

    ghost bits = { λ value. value };

    #[inline(always)]
    fn read<S: Store>(view: &View<S>, at: u16) -> Result<u32, Denial> {
        view.quad(at - at % 4)
    }

    #[inline(always)]
    fn may_write(reach: &Reach, at: u16) -> Result<(), Denial> {
        reach.may_write_quad(at - at % 4)
    }
}
