//! The bytes of tokens, and the options that they complete.
ghost use Rattle.std.specs.Prelude.{◌<◌};

use rg_grammar::{
    ListPosition, ListStep, Setting, list_lead, list_wanted, name_of, setting_of, text_of, value_of,
};
use rg_lexer::{Kind, Token, Want, tokens};
use std::test::Fail;

#[test]
fn names_and_texts(rt: HostRuntime) -> Result<(), Fail> {
    let bytes = b"s0 \"x y\"".as_slice();
    let found = tokens(rt.alloc(), bytes)?;
    for token in &found {
        match token.kind {
            Kind::Name => assert_eq!(rt; name_of(bytes, *token), "s0"),
            _ => {
                assert!(rt; text_of(bytes, *token) == b"\"x y\"".as_slice());
                assert!(rt; value_of(bytes, *token) == b"x y".as_slice());
            }
        }
    }
    Ok(())
}

// A token of one byte.
fn token(kind: Kind, from: u32) -> Token
    requires { from < 100 }
{
    Token {
        kind,
        from,
        to: from + 1,
    }
}

#[test]
fn option_lists(rt: HostRuntime) {
    let key = token(Kind::Name, 1);
    let comma = token(Kind::Comma, 2);
    assert!(rt;
        list_lead(ListPosition::FirstKey, key) == Some(ListStep::On(ListPosition::AfterKey(key)))
    );
    assert!(rt; list_lead(ListPosition::NextKey, comma) == None);
    assert!(rt; list_wanted(ListPosition::NextKey) == Want::Key);
    assert!(rt; setting_of(ListPosition::AfterKey(key), comma) == Some(Setting::Alone(key)));
    assert!(rt; setting_of(ListPosition::Value(key), key) == Some(Setting::Valued(key, key)));
}
