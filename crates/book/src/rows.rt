ghost use Rattle.std.specs.Prelude.{◌≡◌, ◌<◌, length, position, IfSome};
ghost use Rattle.book.specs.Rows.{is_name, has_name, entered};

use crate::fault::Fault;
use isa::Name;

fn is_entry(entry: &Option<Name>, name: Name) -> bool
    ensures { result ≡ is_name name entry.now }
{
    *entry == Some(name)
}

fn has(table: &[Option<Name>], name: Name) -> bool
    ensures { result ≡ has_name name table.now }
{
    table.iter().any(|entry| is_entry(entry, name))
}

/// The place of the name in the table.
pub fn place_of(table: &[Option<Name>], name: Name) -> Option<usize>
    ensures is { result ≡ position (is_name name) table.now }
    ensures within { IfSome result (λ k. k < length table.now) }
{
    table.iter().position(|entry| is_entry(entry, name))
}

/// Enters the name at its number, if both are free. A number that was read becomes a place by `as`: the library has no `From` for the two.
pub fn enter(table: &mut [Option<Name>], name: Name, number: u32) -> Result<(), Fault>
    requires { number < length table.old }
    ensures { (result, table.new) ≡ entered table.old name number }
{
    if table[number as usize].is_some() || has(table, name) {
        return Err(Fault::Repeated);
    }
    table[number as usize] = Some(name);
    Ok(())
}
