//! Laws of the text of names. Each is a function without a parameter, whose contract is the law.

ghost use Rattle.std.specs.Prelude.{◌≡◌, Some};
ghost use Rattle.names_labels.specs.Octets.{AreOctets};
ghost use Rattle.names_wire.specs.Name.{Name, IsName};
ghost use Rattle.names_wire.specs.Text.{name_of_text, relative_of_text, text_of_name};
ghost use Rattle.names_wire.specs.Text.{text_of_relative, dotted_text_of_name};

/// A printed name reads as the same labels, octet for octet (RFC 1035, 5.1). This holds for an
/// absolute name, with or without its last dot, and for a relative name, also an empty one.
pub fn printed_name_is_read_back()
    ensures absolute { (n : Name) → IsName n → AreOctets n
        → name_of_text (text_of_name n) ≡ Some n }
    ensures dotted { (n : Name) → IsName n → AreOctets n
        → name_of_text (dotted_text_of_name n) ≡ Some n }
    ensures relative { (n : Name) → IsName n → AreOctets n
        → relative_of_text (text_of_relative n) ≡ Some n }
{}
