//! Tests of the tokens of HOA texts.

use ps_hoa::{Kind, Tokens};

#[test]
fn tokens_have_their_spans(rt: HostRuntime) {
    let text = b"t--BODY-- @a-b 0t /*a/*b*/*/ \"x\\\"\" 007 AP: AP: [!0|t] --END-- x";
    let mut tokens = Tokens::new(text, 0);
    for (kind, start, stop) in [
        (Kind::Word, 0, 9),
        (Kind::AliasName, 10, 14),
        (Kind::Int, 15, 16),
        (Kind::Word, 16, 17),
        (Kind::Text, 29, 34),
        (Kind::ZeroRun, 35, 38),
        (Kind::Header, 39, 42),
        (Kind::HeaderAgain, 43, 46),
        (Kind::LeftBracket, 47, 48),
        (Kind::Not, 48, 49),
        (Kind::Int, 49, 50),
        (Kind::Or, 50, 51),
        (Kind::Word, 51, 52),
        (Kind::RightBracket, 52, 53),
        (Kind::End, 54, 61),
        (Kind::Behind, 62, 63),
        (Kind::Finish, 63, 63),
    ] {
        let token = tokens.advance();
        assert_eq!(rt; (token.kind, token.start, token.stop), (kind, start, stop));
    }
}
