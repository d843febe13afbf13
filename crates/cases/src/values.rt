ghost use Rattle.std.specs.Prelude.{◌≤◌, IfOk};

use crate::unread::Unread;
use access::{Grant, Kind, Rights};
use machine::Registers;
use text::decimal;

fn number(digits: &[u8], high: u32) -> Result<u32, Unread>
    ensures { IfOk result (λ n. n ≤ high) }
{
    decimal(digits, 0, high).ok_or(Unread::NoCase)
}

pub fn half(word: &[u8]) -> Result<u16, Unread> {
    cli::half(word).ok_or(Unread::NoCase)
}

// Not a listing's `integer`, whose ends are a halfword's: the least number here has no positive one to be taken from.
pub fn signed(word: &[u8]) -> Result<i32, Unread> {
    match word {
        [b'-', digits @ ..] => Ok((-i64::from(number(digits, 2_147_483_648)?)) as i32),
        _ => Ok(number(word, 2_147_483_647)? as i32),
    }
}

pub fn registers(words: &[&[u8]]) -> Result<Registers, Unread> {
    cli::registers(words).ok_or(Unread::NoCase)
}

fn kind(word: &[u8]) -> Result<Kind, Unread> {
    match word {
        b"r" => Ok(Kind::Read),
        b"w" => Ok(Kind::Write),
        _ => Err(Unread::NoCase),
    }
}

// A kind, and the first and the last byte, parted by colons.
fn grant(word: &[u8]) -> Result<Grant, Unread> {
    let mut parts = word.split(|b| *b == b':');
    match (parts.next(), parts.next(), parts.next(), parts.next()) {
        (Some(word), Some(first), Some(last), None) => Ok(Grant {
            kind: kind(word)?,
            first: half(first)?,
            last: half(last)?,
        }),
        _ => Err(Unread::NoCase),
    }
}

// Six grants at most, parted by commas, or a hyphen where there is none.
pub fn rights(word: &[u8]) -> Result<Rights, Unread> {
    let mut grants = [None; 6];
    let mut places = grants.iter_mut();
    match word {
        b"-" => {}
        _ => {
            for part in word.split(|b| *b == b',') {
                *places.next().ok_or(Unread::NoCase)? = Some(grant(part)?);
            }
        }
    }
    Ok(Rights::new(grants))
}
