//! Reads a source to its end.
ghost use Rattle.std.specs.Prelude.{◌≤◌, ◌≢◌, Err};
ghost use Rattle.port_io.specs.Reading.{IsRead};

use crate::Bytes;
use crate::roles::Source;
use std::alloc::Global;
use thiserror::Error;

/// Why a source was not read to its end. The bytes that were read are gone from it.
#[derive(Clone, Copy, Debug, Error)]
pub enum ReadNo {
    #[error("the source failed")]
    Fault,
    #[error("the input is too long")]
    TooLong,
    #[error("no memory is left")]
    NoMemory,
}

const PIECE: usize = 4096;

/// Reads to the end of input, at most `limit` bytes.
pub fn read_all<S: Source>(alloc: Global, source: &mut S, limit: u64) -> Result<Bytes, ReadNo>
    ensures bytes { IsRead limit (S.left source.old) (S.left source.new) (S.faults source.old) (S.faults source.new) result }
    ensures counted { S.faults source.old ≤ S.faults source.new }
    ensures sure { S.never_fails source.old → result ≢ Err ReadNo.Fault }
    ensures lasting { S.never_fails source.old → S.never_fails source.new }
{
    let mut piece = [0u8; PIECE];
    let mut bytes = Vec::new(alloc);
    loop {
        let Ok(count) = source.read(&mut piece) else {
            return Err(ReadNo::Fault);
        };
        if count == 0 {
            return Ok(Bytes::from_vec(bytes));
        }
        if count as u64 > limit - bytes.len() as u64 {
            return Err(ReadNo::TooLong);
        }
        if bytes.extend_from_slice(&piece[..count]).is_err() {
            return Err(ReadNo::NoMemory);
        }
    }
}

#[cfg(test)]
mod tests;
