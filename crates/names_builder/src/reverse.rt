//! The names of addresses (RFC 1035, 3.5; RFC 3596, 2.5).

ghost use Rattle.std.specs.Prelude.{◌≡◌, ◌↔◌, ◌<◌, ◌≤◌, ◌+◌, ◌*◌, ◌%◌, ◌++◌, [], ◌∷◌, length, IfOk};
ghost use Rattle.std.specs.Prelude.{IfErr, IsErrOf, OnOk, OnErr};
ghost use Rattle.names_labels.specs.Flat.{spelled};
ghost use Rattle.names_builder.specs.Addresses.{decimal_label, hex_digit, decimal_labels};
ghost use Rattle.names_builder.specs.Addresses.{hex_labels, reverse_name};
ghost use Rattle.names_builder.specs.Building.{all_labels, IsOver, with_labels};

use crate::builder::NameBuilder;
use crate::push_error::PushError;
use names_wire::builder::OctetsBuilder;
use std::alloc::Global;
use std::net::IpAddr;

impl<B: OctetsBuilder> NameBuilder<B> {
    /// Ends the open label, and adds a label that spells the number in decimal digits.
    pub fn append_dec_u8_label(&mut self, value: u8) -> Result<(), PushError>
        ensures ok { OnOk result (self.new ≡ with_labels self.old (decimal_label value ∷ [])) }
        ensures long_label { IsErrOf result PushError.LongLabel → ⊥ }
        ensures long_name { let after = with_labels self.old (decimal_label value ∷ []) in
            IsErrOf result PushError.LongName ↔ IsOver after }
        ensures err { OnErr result (self.new ≡ self.old) }
    {
        let (hundreds, tens, units) = (
            b'0' + value / 100,
            b'0' + value / 10 % 10,
            b'0' + value % 10,
        );
        match value {
            0..=9 => self.append_label(&[units]),
            10..=99 => self.append_label(&[tens, units]),
            _ => self.append_label(&[hundreds, tens, units]),
        }
    }

    /// Ends the open label, and adds a label that spells the lower four bits as a hexadecimal
    /// digit.
    pub fn append_hex_digit_label(&mut self, nibble: u8) -> Result<(), PushError>
        ensures ok { let label = hex_digit (nibble % 16) ∷ [] in
            OnOk result (self.new ≡ with_labels self.old (label ∷ [])) }
        ensures long_label { IsErrOf result PushError.LongLabel → ⊥ }
        ensures long_name { let label = hex_digit (nibble % 16) ∷ [] in
            IsErrOf result PushError.LongName ↔ IsOver (with_labels self.old (label ∷ [])) }
        ensures err { OnErr result (self.new ≡ self.old) }
    {
        let digit = nibble % 16;
        if digit < 10 {
            self.append_label(&[b'0' + digit])
        } else {
            self.append_label(&[b'a' + digit - 10])
        }
    }
}

/// A builder with the labels of the name under which an address is looked up. The call is refused
/// only for lack of memory.
pub fn reverse_labels(alloc: Global, addr: IpAddr) -> Result<NameBuilder<Vec<u8>>, PushError>
    ensures labels { IfOk result (λ b. all_labels b ≡ reverse_name addr) }
    ensures memory { IfErr result (λ e. e ≡ PushError.ShortBuf) }
{
    let mut builder = NameBuilder::new(alloc);
    match addr {
        IpAddr::V4(addr) => {
            let mut octets = addr.octets();
            octets.reverse();
            append_octets(&mut builder, &octets)?;
            builder.append_label(b"in-addr")?;
        }
        IpAddr::V6(addr) => {
            let mut octets = addr.octets();
            octets.reverse();
            append_nibbles(&mut builder, &octets)?;
            builder.append_label(b"ip6")?;
        }
    }
    builder.append_label(b"arpa")?;
    Ok(builder)
}

/// Appends a label for each octet.
fn append_octets(builder: &mut NameBuilder<Vec<u8>>, octets: &[u8]) -> Result<(), PushError>
    requires closed { builder.old.open_label ≡ [] }
    requires room { length (spelled builder.old.done) + 4 * length octets.now ≤ 254 }
    ensures labels { let done = builder.old.done ++ decimal_labels octets.now in
        OnOk result (builder.new ≡ record { done = done; open_label = [] }) }
    ensures memory { IfErr result (λ e. e ≡ PushError.ShortBuf) }
{
    for octet in octets {
        builder.append_dec_u8_label(*octet)?;
    }
    Ok(())
}

/// Appends a label for each four bits, the lower four bits of an octet first.
fn append_nibbles(builder: &mut NameBuilder<Vec<u8>>, octets: &[u8]) -> Result<(), PushError>
    requires closed { builder.old.open_label ≡ [] }
    requires room { length (spelled builder.old.done) + 4 * length octets.now ≤ 254 }
    ensures labels { let done = builder.old.done ++ hex_labels octets.now in
        OnOk result (builder.new ≡ record { done = done; open_label = [] }) }
    ensures memory { IfErr result (λ e. e ≡ PushError.ShortBuf) }
{
    for octet in octets {
        builder.append_hex_digit_label(*octet)?;
        builder.append_hex_digit_label(*octet / 16)?;
    }
    Ok(())
}
