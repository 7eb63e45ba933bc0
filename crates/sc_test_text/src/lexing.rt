// Texts and their tokens.
use sc_base::{Bytes, Duplicate, Fault, Items, Refusal, X};
use sc_lex::{Token, TokenKind, lex, token_kind};
use std::alloc::{AllocError, Global};
use std::test::Fail;

/// A text, and its tokens as `told` gives them.
const CASES: &[(&[u8], &[u8])] = &[
    (b"", b""),
    (b"\n", b"L1;"),
    (b"a", b"N1a;"),
    (b"a/* x */b ??( 1", b"N1a; N1b; P1[; D11;"),
    (b"x+++++y", b"N1x;P1++;P1++;P1+;N1y;"),
    (b"x+++ ++y", b"N1x;P1++;P1+; P1++;N1y;"),
    (b"a<<=b>>=c...", b"N1a;P1<<=;N1b;P1>>=;N1c;P1...;"),
    (b"->-=--&&&||", b"P1->;P1-=;P1--;P1&&;P1&;P1||;"),
    (b"..", b"P1.;P1.;"),
    (b"....", b"P1...;P1.;"),
    (b"%=^=|=!=~?:", b"P1%=;P1^=;P1|=;P1!=;P1~;P1?;P1:;"),
    (b"##%:#", b"P1##;P1%;P1:;P1#;"),
    (b"===", b"P1==;P1=;"),
    (b"<<<", b"P1<<;P1<;"),
    (b"*/", b"P1*;P1/;"),
    (b"1.2e+3f", b"D11.2e+3f;"),
    (b"0x1e+2", b"D10x1e+2;"),
    (b"0x1f+2", b"D10x1f;P1+;D12;"),
    (b".5", b"D1.5;"),
    (b"1..2", b"D11..2;"),
    (b"1Ex", b"D11Ex;"),
    (b"_a9$", b"N1_a9;O1$;"),
    (b"'\\''", b"C1'\\'';"),
    (b"'ab'", b"C1'ab';"),
    (b"''", b"O1';O1';"),
    (b"L'a'L\"b\"", b"N1L;C1'a';N1L;S1\"b\";"),
    (b"\"a\\\"b\"c", b"S1\"a\\\"b\";N1c;"),
    (b"\"/* x */\"", b"S1\"/* x */\";"),
    (b"\"a\nb\"", b"O1\";N1a;L1;N2b;O2\";"),
    (b"it's", b"N1it;O1';N1s;"),
    (b"\"\\\"\\\"", b"O1\";O1\\;O1\";O1\\;O1\";"),
    (b"'\\'x'\\\n\n", b"C1'\\'x';L2;"),
    (b"\"??/\"\"", b"S1\"\\\"\";"),
    (
        b"??=??(??/??)??'??<??!??>??-",
        b"P1#;P1[;O1\\;P1];P1^;P1{;P1|;P1};P1~;",
    ),
    (b"???=", b"P1?;P1#;"),
    (b"??x", b"P1?;P1?;N1x;"),
    (b"a??/\nb c", b"N1ab; N2c;"),
    (b"a\\\nb\nc", b"N1ab;L2;N3c;"),
    (b"+\\\n\\\n+ x", b"P1++; N3x;"),
    (b"a\\\r\nb\r\nc\rd", b"N1ab;L2;N3c;O3\r;N3d;"),
    (b"a/\\\n*x*\\\n/b", b"N1a; N3b;"),
    (b"a/*\n*/b\nc", b"N1a; N2b;L2;N3c;"),
    (b"a//b", b"N1a;P1/;P1/;N1b;"),
    (b"/**/x", b" N1x;"),
    (b"a \t\x0b\x0c b \n c", b"N1a; N1b; L1; N2c;"),
    (b"a\\", b"N1a;O1\\;"),
    (b"a\x00\xffb", b"N1a;O1\x00;O1\xff;N1b;"),
    (b"/* x", b"!1@1"),
    (b"a\n/*/", b"!1@2"),
    (b"\n\"/*\n*/ /* \"", b"!1@3"),
    (
        b"aaaaaaaaaaaaaaaaaaaaaaaaaaaaaaaaaaaaaaaaaaaaaaaaaaaaaaaaaaaaaaa",
        b"N1aaaaaaaaaaaaaaaaaaaaaaaaaaaaaaaaaaaaaaaaaaaaaaaaaaaaaaaaaaaaaaa;",
    ),
    (
        b"\naaaaaaaaaaaaaaaaaaaaaaaaaaaaaaaaaaaaaaaaaaaaaaaaaaaaaaaaaaaaaaaa /* x",
        b"!identifier@2",
    ),
    (
        b"/* x\naaaaaaaaaaaaaaaaaaaaaaaaaaaaaaaaaaaaaaaaaaaaaaaaaaaaaaaaaaaaaaaa",
        b"!1@1",
    ),
];

fn letter(kind: TokenKind) -> u8 {
    match kind {
        TokenKind::Name => b'N',
        TokenKind::Number => b'D',
        TokenKind::Char => b'C',
        TokenKind::Str => b'S',
        TokenKind::Punct => b'P',
        TokenKind::Other => b'O',
        TokenKind::Newline => b'L',
    }
}

fn digit(line: u32) -> u8 {
    b'0' + (line % 10) as u8
}

// Each token: a space where one stands before it, its kind, its line, its spelling but of a line's end.
fn told_tokens(alloc: Global, tokens: &[Token]) -> Result<Vec<u8>, AllocError> {
    let mut out = Vec::new(alloc);
    for token in tokens {
        if token.space {
            out.extend_from_slice(b" ")?;
        }
        out.extend_from_slice(&[letter(token.kind), digit(token.line)])?;
        if token.kind != TokenKind::Newline {
            out.extend_from_slice(token.text.as_slice())?;
        }
        out.extend_from_slice(b";")?;
    }
    Ok(out)
}

fn told_refusal(alloc: Global, refusal: &Refusal) -> Result<Vec<u8>, AllocError> {
    let mut out = Vec::from_slice(alloc, b"!")?;
    match &refusal.kind {
        X::X1 => out.extend_from_slice(b"1")?,
        X::X10(word) => out.extend_from_slice(word.as_slice())?,
        _ => out.extend_from_slice(b"?")?,
    }
    out.extend_from_slice(refusal.file.as_slice())?;
    out.extend_from_slice(&[b'@', digit(refusal.line)])?;
    Ok(out)
}

fn told(alloc: Global, answer: &Result<Items<Token>, Fault>) -> Result<Vec<u8>, AllocError> {
    match answer {
        Ok(tokens) => told_tokens(alloc, tokens.as_slice()),
        Err(Fault::Refused(refusal)) => told_refusal(alloc, refusal),
        Err(Fault::NoMemory) => Vec::from_slice(alloc, b"no memory"),
    }
}

#[test]
fn texts(rt: HostRuntime) -> Result<(), Fail> {
    for (text, wanted) in CASES {
        assert!(rt; text.len() <= 1048576);
        let answer = lex(rt.alloc(), text, 7);
        let told = told(rt.alloc(), &answer)?;
        assert_eq!(rt; told.as_slice(), *wanted);
    }
    Ok(())
}

#[test]
fn copies(rt: HostRuntime) -> Result<(), Fail> {
    let token = Token {
        kind: TokenKind::Name,
        text: Bytes::from_slice(rt.alloc(), b"ab").ok().ok_or("memory")?,
        file: 1,
        line: 2,
        space: true,
    };
    let copy = token.copy(rt.alloc()).ok().ok_or("memory")?;
    assert_eq!(rt; copy.text.as_slice(), b"ab".as_slice());
    assert_eq!(rt; copy.line, 2);
    Ok(())
}

#[test]
fn kinds(rt: HostRuntime) -> Result<(), Fail> {
    assert_eq!(rt; token_kind(b"ab"), Some(TokenKind::Name));
    assert_eq!(rt; token_kind(b"x1e+"), None);
    assert_eq!(rt; token_kind(b"1e+"), Some(TokenKind::Number));
    assert_eq!(rt; token_kind(b"<<="), Some(TokenKind::Punct));
    assert_eq!(rt; token_kind(b"+++"), None);
    assert_eq!(rt; token_kind(b"\"a\""), Some(TokenKind::Str));
    assert_eq!(rt; token_kind(b"'a'"), Some(TokenKind::Char));
    assert_eq!(rt; token_kind(b"''"), None);
    assert_eq!(rt; token_kind(b"\""), None);
    assert_eq!(rt; token_kind(b"//"), None);
    assert_eq!(rt; token_kind(b""), None);
    Ok(())
}
