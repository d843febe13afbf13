ghost use Rattle.stores.specs.Mapped.{is_new_page, is_page_table, table_check};
ghost use Rattle.std.specs.List.{list_any};
ghost use Rattle.std.specs.Prelude.{◌≡◌, ◌==◌};

use thiserror::Error;

/// Why a table of pages is none.
#[derive(Clone, Copy, Debug, PartialEq, Eq, Error)]
pub enum TableError {
    #[error("a page table has each of 0 to 63 once")]
    Page = 9,
}

impl TableError {
    pub fn number(self) -> u8
        ensures { result ≡ Rattle.stores.specs.Mapped.number self }
    {
        self as u8
    }
}

fn stands_among(page: u8, others: &[u8]) -> bool
    ensures { result ≡ list_any (λ other. other == page) others.now }
{
    others.iter().any(|other| *other == page)
}

// Whether a page number is in range, and none of the others.
fn is_new(page: u8, others: &[u8]) -> bool
    ensures { result ≡ is_new_page page others.now }
{
    page < 64 && !stands_among(page, others)
}

fn is_once(pages: &[u8]) -> bool
    ensures { result ≡ is_page_table pages.now }
{
    match pages {
        [] => true,
        [page, rest @ ..] => is_new(*page, rest) && is_once(rest),
    }
}

/// The check before a mapped store is made: refuses a page number out of range or repeated.
pub fn check_table(table: &[u8; 64]) -> Result<(), TableError>
    ensures { result ≡ table_check table.now }
{
    if is_once(table) {
        Ok(())
    } else {
        Err(TableError::Page)
    }
}
