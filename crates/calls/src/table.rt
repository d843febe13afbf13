use stores::TableError;
use text::{Lines, decimal};

// A page number, on the next line.
fn next_page(lines: &mut Lines) -> Result<u8, TableError> {
    let Ok(Some(line)) = lines.next_line() else {
        return Err(TableError::Page);
    };
    decimal(line.text, 0, 63)
        .map(|page| page as u8)
        .ok_or(TableError::Page)
}

// A table of 64 page numbers, one a line.
pub fn read_table(text: &[u8]) -> Result<[u8; 64], TableError> {
    let mut table = [0u8; 64];
    let mut lines = Lines::new(text);
    for page in table.iter_mut() {
        *page = next_page(&mut lines)?;
    }
    match lines.next_line() {
        Ok(None) => Ok(table),
        _ => Err(TableError::Page),
    }
}
