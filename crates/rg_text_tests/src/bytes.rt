//! Bytes and names, and the tokens of texts.
use crate::samples::{with_bytes, with_names};
use rg_lexer::{Kind, LexFault, one_answer, spans, tokens};
use rg_text::{MOST_BYTES, is_blank_byte, is_name, is_name_byte, len_before, name_len};
use std::alloc::Global;
use std::test::Fail;

// The tokens of a text, each with its span.
const SPANS: [(Kind, u32, u32); 15] = [
    (Kind::Word, 0, 5),
    (Kind::Name, 14, 16),
    (Kind::Name, 17, 18),
    (Kind::Arrow, 18, 20),
    (Kind::LeftBrace, 20, 21),
    (Kind::Name, 21, 22),
    (Kind::Star, 22, 23),
    (Kind::Name, 23, 24),
    (Kind::RightBrace, 24, 25),
    (Kind::Text, 35, 38),
    (Kind::LeftBracket, 38, 39),
    (Kind::Comma, 39, 40),
    (Kind::RightBracket, 40, 41),
    (Kind::Equals, 41, 42),
    (Kind::Colon, 42, 43),
];

// Bytes, whether a name may have them, and whether they are blank.
const BYTES: [(u8, bool, bool); 10] = [
    (b'a', true, false),
    (b'Z', true, false),
    (b'0', true, false),
    (b'_', true, false),
    (b'.', false, false),
    (0xe4, false, false),
    (b' ', false, true),
    (b'\t', false, true),
    (b'\r', false, true),
    (b'\n', false, true),
];

// Texts with a fault in their tokens.
const FAULTS: [(&str, LexFault); 5] = [
    ("ab $ \"", LexFault::BadByte(3)),
    (". a", LexFault::BadByte(0)),
    ("-", LexFault::BadByte(0)),
    ("ab \" $", LexFault::OpenString(3)),
    ("a/*/", LexFault::OpenComment(1)),
];

#[test]
fn bytes_of_names(rt: HostRuntime) {
    for (byte, names, blank) in BYTES {
        assert!(rt;
            is_name_byte(byte) == names && is_blank_byte(byte) == blank,
            "{byte}"
        );
    }
}

#[test]
fn names(rt: HostRuntime) -> Result<(), Fail> {
    assert!(rt; is_name(b"s_0") && !is_name(b"") && !is_name(b"s 0"));
    assert!(rt; is_name(&with_bytes(rt.alloc(), "", 255, "")?));
    assert!(rt; !is_name(&with_bytes(rt.alloc(), "", 256, "")?));
    assert_eq!(rt; name_len(b"s_0[initial]"), 3);
    assert_eq!(rt; len_before(b"ab\"c", b'"'), 2);
    assert_eq!(rt; len_before(b"abc", b'"'), 3);
    Ok(())
}

#[test]
fn kinds_and_spans(rt: HostRuntime) -> Result<(), Fail> {
    let found = tokens(
        rt.alloc(),
        b".arcs // one\n q0 a->{2*p} /* * / */\"x\"[,]=:",
    )?;
    assert_eq!(rt; found.len(), SPANS.len());
    for (token, (kind, from, to)) in found.iter().zip(SPANS.as_slice()) {
        assert!(rt;
            token.kind == *kind && token.from == *from && token.to == *to,
            "{from}"
        );
    }
    one_answer();
    spans();
    Ok(())
}

// The first fault of a text in its tokens.
fn fault(alloc: Global, text: &[u8]) -> Option<LexFault> {
    if text.len() > MOST_BYTES {
        return None;
    }
    tokens(alloc, text).err()
}

#[test]
fn faults_of_tokens(rt: HostRuntime) -> Result<(), Fail> {
    let alloc = rt.alloc();
    for (text, wanted) in FAULTS {
        assert!(rt; fault(alloc, text.as_bytes()) == Some(wanted), "{text}");
    }
    assert!(rt; fault(alloc, &with_bytes(alloc, "a ", 255, " b")?) == None);
    assert!(rt; fault(alloc, &with_bytes(alloc, "a ", 256, " b")?) == Some(LexFault::LongName(2)));
    Ok(())
}

#[test]
fn tokens_of_a_long_text(rt: HostRuntime) -> Result<(), Fail> {
    let alloc = rt.alloc();
    let text = with_names(alloc, "", 50_000, "")?;
    assert!(rt; text.len() == 200_000);
    assert_eq!(rt; tokens(alloc, &text)?.len(), 50_000);
    Ok(())
}
