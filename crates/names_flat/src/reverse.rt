//! The names of addresses (RFC 1035, 3.5; RFC 3596, 2.5).

ghost use Rattle.std.specs.Prelude.{◌≡◌, IfOk, IfErr};
ghost use Rattle.names_builder.specs.Addresses.{reverse_name};

use crate::builder::Finish;
use crate::name::Name;
use names_builder::push_error::PushError;
use names_builder::reverse::reverse_labels;
use std::alloc::Global;
use std::net::IpAddr;

impl Name<Vec<u8>> {
    /// The name under which an address is looked up: its octets backwards, in decimal under
    /// `in-addr.arpa` or four bits a label under `ip6.arpa`. The call is refused only for lack of
    /// memory.
    pub fn reverse_from_addr(alloc: Global, addr: IpAddr) -> Result<Self, PushError>
        ensures name { IfOk result (λ n. n ≡ reverse_name addr) }
        ensures memory { IfErr result (λ e. e ≡ PushError.ShortBuf) }
    {
        match reverse_labels(alloc, addr)?.into_name() {
            Ok(name) => Ok(name),
            Err(_) => Err(PushError::ShortBuf),
        }
    }
}
