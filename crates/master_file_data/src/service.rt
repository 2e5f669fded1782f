//! Parameters of services (RFC 9460).

use crate::fault::DataFault;
use crate::field::Field;
use crate::service_keys::{key_of, value_octets};
use std::alloc::{AllocError, Global};

/// A parameter: its key, and the octets of its value.
#[derive(Drop)]
struct Parameter {
    key: u16,
    value: Vec<u8>,
}

/// The parameters of a service, by ascending keys.
pub(crate) fn parameters_octets(alloc: Global, fields: &[Field]) -> Result<Vec<u8>, DataFault> {
    let parameters = parameters_of(alloc, fields)?;
    check_mandatory(&parameters)?;
    let mut out = Vec::new(alloc);
    for parameter in &parameters {
        let length = u16::try_from(parameter.value.len()).map_err(|_| DataFault::Long)?;
        out.extend_from_slice(&parameter.key.to_be_bytes())?;
        out.extend_from_slice(&length.to_be_bytes())?;
        out.extend_from_slice(&parameter.value)?;
    }
    Ok(out)
}

/// The parameters of fields, by ascending keys.
fn parameters_of(alloc: Global, fields: &[Field]) -> Result<Vec<Parameter>, DataFault> {
    let mut parameters = Vec::new(alloc);
    let mut rest = fields;
    for _ in 0..fields.len() {
        let [first, behind @ ..] = rest else {
            break;
        };
        let (parameter, behind) = parameter_of(alloc, first, behind)?;
        add(&mut parameters, parameter)?;
        rest = behind;
    }
    Ok(parameters)
}

/// The parameter of a field, and of the one behind it if that is its value in quotes.
fn parameter_of<'f>(
    alloc: Global,
    field: &Field,
    behind: &'f [Field],
) -> Result<(Parameter, &'f [Field]), DataFault> {
    let text = field.text.as_str();
    if field.is_quoted || field.is_joined {
        return Err(DataFault::Parameter);
    }
    let (word, value) = text.split_once('=').unwrap_or((text, ""));
    let key = key_of(word).ok_or(DataFault::Parameter)?;
    if let [quoted, others @ ..] = behind {
        if quoted.is_joined && quoted.is_quoted && value.is_empty() && word.len() < text.len() {
            let value = value_octets(alloc, key, quoted.text.as_str())?;
            return Ok((Parameter { key, value }, others));
        }
    }
    let value = value_octets(alloc, key, value)?;
    Ok((Parameter { key, value }, behind))
}

/// Adds a parameter behind those of lower keys.
fn add(parameters: &mut Vec<Parameter>, parameter: Parameter) -> Result<(), DataFault> {
    let place = parameters
        .iter()
        .position(|other| other.key >= parameter.key)
        .unwrap_or(parameters.len());
    if parameters
        .get(place)
        .is_some_and(|other| other.key == parameter.key)
    {
        return Err(DataFault::TwoParameters);
    }
    parameters
        .insert(place, parameter)
        .map_err(AllocError::from)?;
    Ok(())
}

fn has_key(parameters: &[Parameter], key: u16) -> bool {
    parameters.iter().any(|parameter| parameter.key == key)
}

/// Whether the keys that `mandatory` names are there, and protocols where there is no default.
fn check_mandatory(parameters: &[Parameter]) -> Result<(), DataFault> {
    if has_key(parameters, 2) && !has_key(parameters, 1) {
        return Err(DataFault::NoParameter);
    }
    let [first, ..] = parameters else {
        return Ok(());
    };
    if first.key != 0 {
        return Ok(());
    }
    for pair in first.value.as_slice().chunks_exact(2) {
        let [high, low] = pair else {
            break;
        };
        if !has_key(parameters, u16::from_be_bytes([*high, *low])) {
            return Err(DataFault::NoParameter);
        }
    }
    Ok(())
}
