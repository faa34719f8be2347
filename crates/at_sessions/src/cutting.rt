//! Tokens with both of their ends, which no reader asks for.

use at_text::scan::scan;
use at_text::token::{Token, TokenKind};

#[test]
fn tokens_have_both_ends(rt: HostRuntime) {
    let found = scan(rt.alloc(), " é::=\"\"0").ok().expect(&rt, "tokens");
    let wanted = [
        Token {
            kind: TokenKind::Word,
            start: 1,
            end: 3,
        },
        Token {
            kind: TokenKind::Sign,
            start: 3,
            end: 6,
        },
        Token {
            kind: TokenKind::Text,
            start: 6,
            end: 8,
        },
        Token {
            kind: TokenKind::Number,
            start: 8,
            end: 9,
        },
    ];
    assert!(rt; found.as_slice() == wanted.as_slice());
    assert!(rt;
        scan(rt.alloc(), "")
            .ok()
            .expect(&rt, "no tokens")
            .is_empty()
    );
}
