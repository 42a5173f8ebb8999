// What no clause says: that with ample memory the tokens come, and where.
use sql_lex::{Keyword, LexFault, ScanEnd, Sign, TokenKind, lex, scan_tokens};
use std::test::Fail;

#[test]
fn each_kind_of_token_is_read(rt: HostRuntime) -> Result<(), Fail> {
    let text = "Select sElEcT_ x1<=-- no token\n 007'it''s' ''<>!=<\t>=>\r=*(,)+-9 '\u{e9}'--";
    let tokens = lex(rt.alloc(), text, 100)?;
    let wants = [
        (100, TokenKind::Word(Keyword::Select)),
        (107, TokenKind::Name("sElEcT_")),
        (115, TokenKind::Name("x1")),
        (117, TokenKind::Sign(Sign::LessEqual)),
        (132, TokenKind::Number(7)),
        (135, TokenKind::Literal("it''s")),
        (143, TokenKind::Literal("")),
        (145, TokenKind::Sign(Sign::NotEqual)),
        (147, TokenKind::Sign(Sign::NotEqual)),
        (149, TokenKind::Sign(Sign::Less)),
        (151, TokenKind::Sign(Sign::GreaterEqual)),
        (153, TokenKind::Sign(Sign::Greater)),
        (155, TokenKind::Sign(Sign::Equal)),
        (156, TokenKind::Sign(Sign::Star)),
        (157, TokenKind::Sign(Sign::Open)),
        (158, TokenKind::Sign(Sign::Comma)),
        (159, TokenKind::Sign(Sign::Close)),
        (160, TokenKind::Sign(Sign::Plus)),
        (161, TokenKind::Sign(Sign::Minus)),
        (162, TokenKind::Number(9)),
        (164, TokenKind::Literal("\u{e9}")),
    ];
    assert_eq!(rt; tokens.len(), wants.len());
    for (token, want) in tokens.iter().zip(wants.iter()) {
        assert_eq!(rt; token.at, want.0);
        assert_eq!(rt; token.kind, want.1);
    }
    Ok(())
}

#[test]
fn what_is_no_token_is_refused_at_its_first_byte(rt: HostRuntime) -> Result<(), Fail> {
    let rows = [
        (";", 40),
        ("  ?", 42),
        ("a.b", 41),
        ("a !b", 42),
        ("x 'open", 42),
        ("x 'open''", 42),
        ("'a\tb'", 40),
        ("1 '\u{7f}'", 42),
        ("-- ' \n \"a\"", 47),
        ("_a", 40),
        ("x \u{e9}", 42),
    ];
    for (text, at) in rows {
        let fault = lex(rt.alloc(), text, 40).err();
        assert_eq!(rt; fault, Some(LexFault::Syntax { at }), "{text}");
        let found = scan_tokens(rt.alloc(), text, 40)?;
        assert_eq!(rt; found.end, ScanEnd::NoToken(at));
    }
    let number = lex(rt.alloc(), "99999999999999999999", 0)?;
    assert_eq!(rt; number.len(), 1);
    assert_eq!(rt; number[0].kind, TokenKind::Number(u64::MAX));
    Ok(())
}
