//! Reading a source to its end, up to a limit.
//! An `Ok` has at most `limit` bytes, a fault came after at most as many, and TooLong took one
//! more.
ghost use Rattle.std.specs.Prelude.{◌≡◌, ◌≤◌, ◌+◌, length, IfOk, OnOk, IsErrOf};
ghost use Rattle.std.specs.Io.KnownBytes.{Consumes, IsAtEnd};
ghost use Rattle.gta_port.specs.Port.{ConsumesSome, Rose};
ghost use Rattle.gta_port.specs.declared.reading.ReadEnd.TheVariants.{Memory};

use crate::ports::{Failed, Source};
use std::alloc::{AllocError, Global};

const BLOCK: usize = 4096;

/// The largest limit that [`read_all`] takes.
pub const LARGEST_LIMIT: usize = 67_108_864;

/// Why a source was not read to its end.
#[derive(Clone, Copy, Debug, PartialEq, Eq)]
pub enum ReadEnd {
    /// A read failed.
    ReadFault,
    /// There were more bytes than the limit.
    TooLong,
    /// No memory was left.
    Memory,
}

impl From<AllocError> for ReadEnd {
    ghost from_gives = { λ _ e. e ≡ Memory };

    fn from(_error: AllocError) -> ReadEnd {
        ReadEnd::Memory
    }
}

/// All bytes that the source has left, at most `limit` of them.
/// The first failed read ends it. At any end but `Ok` the bytes read so far are dropped,
/// and the source has lost just them: at TooLong `limit + 1`.
pub fn read_all<S: Source>(alloc: Global, source: &mut S, limit: usize) -> Result<Vec<u8>, ReadEnd>
    requires { limit ≤ LARGEST_LIMIT }
    ensures bytes { IfOk result (λ v. Consumes (S.left source.old) (S.left source.new) v.items) }
    ensures end { OnOk result (IsAtEnd (S.left source.new)) }
    ensures within { IfOk result (λ v. length v.items ≤ limit) }
    ensures too_long { IsErrOf result ReadEnd.TooLong
        → ConsumesSome (S.left source.old) (S.left source.new) (λ n. n ≡ limit + 1) }
    ensures read_fault { IsErrOf result ReadEnd.ReadFault
        → Rose (S.faults source.old) (S.faults source.new) }
    ensures before_fault { IsErrOf result ReadEnd.ReadFault
        → ConsumesSome (S.left source.old) (S.left source.new) (λ n. n ≤ limit) }
    ensures memory { IsErrOf result ReadEnd.Memory
        → ConsumesSome (S.left source.old) (S.left source.new) (λ n. n ≤ limit + 1) }
    ensures steady { OnOk result (S.faults source.new ≡ S.faults source.old) }
    ensures steady_too_long { IsErrOf result ReadEnd.TooLong
        → S.faults source.new ≡ S.faults source.old }
    ensures steady_memory { IsErrOf result ReadEnd.Memory
        → S.faults source.new ≡ S.faults source.old }
    ensures counts { S.faults source.old ≤ S.faults source.new }
{
    let mut bytes = Vec::new(alloc);
    let mut block = [0u8; BLOCK];
    while bytes.len() <= limit {
        let want = (limit + 1 - bytes.len()).min(BLOCK);
        let n = match source.read(&mut block[..want]) {
            Ok(n) => n,
            Err(Failed) => return Err(ReadEnd::ReadFault),
        };
        if n == 0 {
            return Ok(bytes);
        }
        bytes.extend_from_slice(&block[..n])?;
    }
    Err(ReadEnd::TooLong)
}
