//! Why octets can't be read.

ghost use Rattle.std.specs.Prelude.{◌≡◌};

use thiserror::Error;

/// What is wrong with the form of octets that are all there.
#[derive(Clone, Copy, Debug, PartialEq, Eq, Error)]
#[error("{0}")]
pub struct FormError(&'static str);

impl FormError {
    ghost use Rattle.names_parser.specs.Errors.{text_of};

    /// A fault that is printed as the text.
    pub fn new(text: &'static str) -> Self
        ensures { text_of result ≡ text.now }
    {
        FormError(text)
    }
}

/// Why octets can't be read.
#[derive(Clone, Copy, Debug, PartialEq, Eq, Error)]
pub enum ParseError {
    /// The octets end too soon.
    #[error("unexpected end of input")]
    ShortInput,
    /// The octets are there, and are malformed.
    #[error("{0}")]
    Form(FormError),
}

impl ParseError {
    ghost use Rattle.names_parser.specs.Errors.{form_text};
    ghost use Rattle.std.specs.Prelude.{Some};

    /// A fault of form that is printed as the text.
    pub fn form_error(text: &'static str) -> Self
        ensures { form_text result ≡ Some text.now }
    {
        ParseError::Form(FormError::new(text))
    }
}

impl From<FormError> for ParseError {
    ghost use Rattle.names_parser.specs.declared.error.ParseError.TheVariants.{Form};

    ghost from_gives = { λ f e. e ≡ Form f };

    fn from(error: FormError) -> ParseError {
        ParseError::Form(error)
    }
}
