//! A whole file, by reads at rising offsets.
ghost use Rattle.std.specs.Prelude.{◌≡◌, ℕ, ◌<◌, ◌≤◌, List, length, IfOk, IfSome, IsErrOf};
ghost use Rattle.std.specs.Prelude.{vec_len};
ghost use Rattle.hull_io.specs.Edge.{Rose};
ghost use Rattle.hull_io.specs.declared.file.TheConstants.{PIECE};
ghost use Rattle.plain_lists.specs.declared.limits.TheConstants.{MOST_BYTES};

use crate::{ReadFailed, Shelf};
use plain_lists::limits::MOST_BYTES;
use std::alloc::{AllocError, Global};

/// The most bytes that are asked for at once.
const PIECE: usize = 65_536;

/// Why a file wasn't read.
#[derive(Debug, Clone, Copy, PartialEq, Eq)]
pub enum ReadFault {
    /// A read failed.
    Failed,
    /// The file has more than [`MOST_BYTES`] bytes.
    TooBig,
    /// Memory ran out.
    Memory,
}

/// Room for what is asked for at once: on the heap, since a caller's stack may be small.
fn make_read_buffer(alloc: Global) -> Result<Vec<u8>, AllocError>
    ensures { IfOk result (λ room. vec_len room ≡ PIECE) }
{
    vec![in alloc; 0u8; PIECE]
}

/// The bytes of a file.
///
/// Where the file is told, it is read exactly where it has at most [`MOST_BYTES`] bytes, and
/// `TooBig` exactly where it has more. A failed read and a lack of memory come before both.
pub fn read_whole<F: Shelf>(alloc: Global, shelf: &mut F, name: &str) -> Result<Vec<u8>, ReadFault>
    ensures bytes { IfOk result (λ v. IfSome (F.told shelf.old name.now)
        (λ bytes. v.items ≡ bytes)) }
    ensures fits { IfOk result (λ v. vec_len v ≤ MOST_BYTES) }
    ensures too_big { IsErrOf result ReadFault.TooBig
        → IfSome (F.told shelf.old name.now) (λ bytes. MOST_BYTES < length bytes) }
    ensures failed { IsErrOf result ReadFault.Failed
        → Rose F.last (F.faults shelf.old name.now) (F.faults shelf.new name.now) }
    ensures later { (any : List ℕ) → F.faults shelf.old any ≤ F.faults shelf.new any }
    ensures told { F.told shelf.new ≡ F.told shelf.old }
{
    let Ok(mut room) = make_read_buffer(alloc) else {
        return Err(ReadFault::Memory);
    };
    let room = room.as_mut_slice();
    let mut bytes = Vec::new(alloc);
    'reading: while bytes.len() <= MOST_BYTES {
        let n = match shelf.read(name, bytes.len() as u64, room) {
            Ok(n) => n,
            Err(ReadFailed) => return Err(ReadFault::Failed),
        };
        if n == 0 {
            return Ok(bytes);
        }
        if bytes.extend_from_slice(&room[..n]).is_err() {
            return Err(ReadFault::Memory);
        }
    }
    Err(ReadFault::TooBig)
}
