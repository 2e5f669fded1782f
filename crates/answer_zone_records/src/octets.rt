//! The octets of data as they are spelled.
ghost use Rattle.std.specs.Prelude.{◌≡◌, IfOk};

use names_rdata::data::ComposeRecordData;
use std::alloc::{AllocError, Global};

/// The octets of data, as spelled.
pub fn written_octets<D: ComposeRecordData>(alloc: Global, rdata: &D) -> Result<Vec<u8>, AllocError>
    ensures { IfOk result (λ v. v.items ≡ D.rdata rdata.now) }
{
    let mut octets = Vec::new(alloc);
    match rdata.compose_rdata(&mut octets) {
        Ok(()) => Ok(octets),
        Err(_) => Err(AllocError),
    }
}
