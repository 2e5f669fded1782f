//! What is told of names where no line can ask: walks from places, texts in one walk, and faults
//! that no text brings.

use names::{
    Chain, FormError, FromStrError, Labels, Name, ParseError, ParsedName, Parser, PushNameError,
    RelativeFromStrError, RelativeName,
};
use names_builder::walk::{relative_octets, text_octets};
use std::process::Abort;
use std::test::Fail;

/// From each place each label is the one at its index, and behind the last there is none.
fn walk<N: Labels>(rt: &impl Abort, name: &N) {
    let count = name.label_count();
    for start in 0..count {
        let mut place = name.label_place(start);
        for index in start..count {
            let (label, next) = name.label_onward(place, index).expect(rt, "a label");
            assert!(rt; Some(label) == name.label_at(index));
            place = next;
        }
        assert!(rt; name.label_onward(place, count).is_none());
    }
    let place = name.label_place(count);
    assert!(rt; name.label_onward(place, count).is_none());
}

#[test]
fn labels_are_reached_from_places(rt: HostRuntime) {
    let message = b"\x03com\x00\x07example\xc0\x00\x03www\xc0\x05";
    let mut parser = Parser::from_ref(message);
    assert!(rt; parser.seek(15).is_ok());
    let name = ParsedName::parse(&mut parser).expect(&rt, "a name");
    walk(&rt, &name);
    assert!(rt; name.label_at(1).map(|label| label.len()) == Some(7) && name.label_at(4).is_none());
    walk(
        &rt,
        &Name::from_slice(b"\x03www\x07example\x00").expect(&rt, "a name"),
    );
    let host = RelativeName::from_slice(b"\x03www\x07example").expect(&rt, "a name");
    walk(&rt, &host);
    walk(&rt, &Chain::new(host, name).expect(&rt, "a chain"));
}

/// Each symbol gives an octet, and each label stands behind its length.
#[test]
fn texts_are_read_in_one_walk(rt: HostRuntime) -> Result<(), Fail> {
    let alloc = rt.alloc();
    for text in [
        b"Www.example".as_slice(),
        b"Www.example.",
        b"W\\119w.ex\\ampl\\e.",
    ] {
        let octets = text_octets(alloc, text)?;
        assert!(rt; octets.as_deref() == Some(b"\x03Www\x07example\x00".as_slice()));
    }
    let octets = relative_octets(alloc, b"a\\..\\000\\ [")?;
    assert!(rt; octets.as_deref() == Some(b"\x02a.\x03\x00 [".as_slice()));
    for text in [
        b"a..b".as_slice(),
        b".",
        b"",
        b"a\x7f",
        b"\\[",
        b"\\25",
        b"\\256",
        b"\\",
    ] {
        assert!(rt; text_octets(alloc, text)?.is_none());
        assert!(rt; relative_octets(alloc, text)?.is_none());
    }
    assert!(rt; relative_octets(alloc, b"a.")?.is_none());
    Ok(())
}

/// Texts of faults that come of want of memory alone, and of those that a caller names.
#[test]
fn faults_that_no_line_brings(rt: HostRuntime) -> Result<(), Fail> {
    let short = FromStrError::ShortBuf;
    let (name, relative) = (
        PushNameError::ShortBuf,
        RelativeFromStrError::FromStr(short),
    );
    assert_eq!(rt; short.to_string(rt.alloc())?.as_str(), "buffer too short");
    assert_eq!(rt; name.to_string(rt.alloc())?.as_str(), "buffer too short");
    assert_eq!(rt;
        relative.to_string(rt.alloc())?.as_str(),
        "buffer too short"
    );
    let fault = FormError::new("some fault");
    assert_eq!(rt; fault.to_string(rt.alloc())?.as_str(), "some fault");
    let fault = ParseError::form_error("another one");
    assert_eq!(rt; fault.to_string(rt.alloc())?.as_str(), "another one");
    Ok(())
}
