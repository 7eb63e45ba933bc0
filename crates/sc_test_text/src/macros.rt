// Lists and what they expand to.
use sc_base::{Bytes, Fault, Items, Name, X};
use sc_lex::{Token, lex};
use sc_macro::{Macros, expand, is_fixed};
use std::alloc::{AllocError, Global};
use std::test::Fail;

// The tokens of a text; none for one that the lexer does not take.
fn split(alloc: Global, text: &str) -> Items<Token> {
    if text.len() > 1048576 {
        return Items::new(alloc);
    }
    match lex(alloc, text.as_bytes(), 1) {
        Ok(tokens) => tokens,
        Err(_) => Items::new(alloc),
    }
}

// A refusal by its kind and line.
fn refusal(alloc: Global, fault: &Fault) -> Result<String, AllocError> {
    match fault {
        Fault::NoMemory => format!(in alloc; "no memory"),
        Fault::Refused(refusal) => {
            let line = refusal.line;
            match &refusal.kind {
                X::X2 => format!(in alloc; "X2 {line}"),
                X::X3 => format!(in alloc; "X3 {line}"),
                X::X9(_) => format!(in alloc; "X9 {line}"),
                X::X10(word) => {
                    if word.as_slice() == b"macros".as_slice() {
                        format!(in alloc; "X10 macros {line}")
                    } else {
                        format!(in alloc; "X10 identifier {line}")
                    }
                }
                _ => format!(in alloc; "other"),
            }
        }
    }
}

// The spellings of tokens, one blank between them.
fn spelled(alloc: Global, tokens: &[Token]) -> Result<String, AllocError> {
    let mut text = String::new(alloc);
    for token in tokens {
        if !text.is_empty() {
            text.push_str(" ")?;
        }
        match str::from_utf8(token.text.as_slice()) {
            Ok(word) => text.push_str(word)?,
            Err(_) => text.push_str("?")?,
        }
    }
    Ok(text)
}

// A list, expanded, with the replacements that are left where they are few.
fn expanded(alloc: Global, macros: &Macros, text: &str, left: u32) -> Result<String, AllocError> {
    let tokens = split(alloc, text);
    match expand(alloc, tokens.as_slice(), macros, left) {
        Ok((done, rest)) => {
            let text = spelled(alloc, done.as_slice())?;
            if left < 1000 {
                format!(in alloc; "{text} left {rest}")
            } else {
                Ok(text)
            }
        }
        Err(fault) => refusal(alloc, &fault),
    }
}

// A line that begins with `-` takes a name away; each other one is what follows `define`.
fn directive(alloc: Global, macros: &mut Macros, line: &str) -> Result<String, AllocError> {
    if let Some(gone) = line.strip_prefix("-") {
        if let Ok(name) = Name::new(alloc, gone.as_bytes()) {
            macros.undef(&name);
        }
        return Ok(String::new(alloc));
    }
    let tokens = split(alloc, line);
    match macros.define(alloc, tokens.as_slice()) {
        Ok(()) => Ok(String::new(alloc)),
        Err(fault) => refusal(alloc, &fault),
    }
}

// Lines that begin with `#` are taken by `directive`; each other one is expanded.
const LINES: &[(&str, &str)] = &[
    ("#x 3", ""),
    ("#f(a) f(x * (a))", ""),
    ("#-x", ""),
    ("#x 2", ""),
    ("#g f", ""),
    ("#z z[0]", ""),
    ("#h g(~", ""),
    ("#m(a) a(w)", ""),
    ("#w 0,1", ""),
    ("#t(a) a", ""),
    (
        "f(y+1) + f(f(z)) % t(t(g)(0) + t)(1);",
        "f ( 2 * ( y + 1 ) ) + f ( 2 * ( f ( 2 * ( z [ 0 ] ) ) ) ) % f ( 2 * ( 0 ) ) + t ( 1 ) ;",
    ),
    (
        "g(x+(3,4)-w) | h 5) & m\n(f)^m(m);",
        "f ( 2 * ( 2 + ( 3 , 4 ) - 0 , 1 ) ) | f ( 2 * ( ~ 5 ) ) & f ( 2 * ( 0 , 1 ) ) ^ m ( 0 , 1 ) ;",
    ),
    ("#-f", ""),
    ("#-g", ""),
    ("#-h", ""),
    ("#-w", ""),
    ("#-t", ""),
    ("#-x", ""),
    ("#-m", ""),
    ("#-z", ""),
    ("#str(s) # s", ""),
    ("#twice(a) a*again", ""),
    ("#again(a) twice(a)", ""),
    ("twice(2)(9)", "2 * 9 * again"),
    ("#xstr(s) str(s)", ""),
    (
        "#debug(s, t) printf(\"x\" # s \"= %d, x\" # t \"= %s\", x ## s, x ## t)",
        "",
    ),
    ("#INCFILE(n) vers ## n", ""),
    ("#glue(a, b) a ## b", ""),
    ("#xglue(a, b) glue(a, b)", ""),
    ("#HIGHLOW \"hello\"", ""),
    ("#LOW LOW \", world\"", ""),
    ("#three(x,y,z) x ## y ## z", ""),
    ("#hash_hash # ## #", ""),
    ("#mkstr(a) # a", ""),
    ("#in_between(a) mkstr(a)", ""),
    ("#join(c, d) in_between(c hash_hash d)", ""),
    ("#s(x) #x", ""),
    ("#p(x, y) x ## y", ""),
    ("#id(x) x", ""),
    ("#own(x) x own", ""),
    ("#a a + 1", ""),
    ("#both(x) #x x x ## 1", ""),
    ("#nil", ""),
    ("#none() 7", ""),
    ("#EMPTY", ""),
    (
        "debug(1, 2);",
        "printf ( \"x\" \"1\" \"= %d, x\" \"2\" \"= %s\" , x1 , x2 ) ;",
    ),
    (
        "fputs(str(strncmp(\"abc\\0d\", \"abc\", '\\4') /* this goes away */\n == 0) str(: @\\n), s);",
        "fputs ( \"strncmp(\\\"abc\\\\0d\\\", \\\"abc\\\", '\\\\4') == 0\" \": @\\n\" , s ) ;",
    ),
    ("xstr(INCFILE(2).h)", "\"vers2.h\""),
    ("glue(HIGH, LOW);", "\"hello\" ;"),
    ("xglue(HIGH, LOW)", "\"hello\" \", world\""),
    (
        "three(1,2,3), three(,4,5), three(6,,7), three(8,9,), three(10,,), three(,11,), three(,,12), three(,,)",
        "123 , 45 , 67 , 89 , 10 , 11 , 12 ,",
    ),
    ("join(x, y)", "\"x ## y\""),
    ("own(1)(2)", "1 own ( 2 )"),
    ("a", "a + 1"),
    ("s( a  + \"b\\n\" )", "\"a + \\\"b\\\\n\\\"\""),
    ("p(1, 2)", "12"),
    ("p(1)", "X3 1"),
    ("\np(1, 2", "X3 2"),
    ("p", "p"),
    ("p(+, -)", "X9 1"),
    ("p(L, \"x\")", "X9 1"),
    ("p(nil, a) nil", "nila"),
    ("id(id)(a)", "id ( a + 1 )"),
    ("id(id(id(a)))", "a + 1"),
    ("id((1, 2))", "( 1 , 2 )"),
    ("both(a)", "\"a\" a + 1 a1"),
    ("s()", "\"\""),
    ("s(id(EMPTY 'x' \\ \"))", "\"id(EMPTY 'x' \\ \")\""),
    ("none() none(1)", "X3 1"),
    ("none ( ) none", "7 none"),
    (
        "__LINE__ id(\n__LINE__) __STDC__ __FILE__",
        "1 2 1 \"d\\\"\\\\e\"",
    ),
    (
        "p(aaaaaaaaaaaaaaaaaaaaaaaaaaaaaaaa, aaaaaaaaaaaaaaaaaaaaaaaaaaaaaaa)",
        "aaaaaaaaaaaaaaaaaaaaaaaaaaaaaaaaaaaaaaaaaaaaaaaaaaaaaaaaaaaaaaa",
    ),
    (
        "p(aaaaaaaaaaaaaaaaaaaaaaaaaaaaaaaa, aaaaaaaaaaaaaaaaaaaaaaaaaaaaaaaa)",
        "X10 identifier 1",
    ),
];

// The examples of ANSI 3.8.3.5, and more lists beside them.
#[test]
fn lists_expand_as_the_standard_prints(rt: HostRuntime) -> Result<(), Fail> {
    let alloc = rt.alloc();
    let mut macros = Macros::new(alloc)?;
    macros.name_file(alloc, 1, b"d\"\\e")?;
    for (line, wanted) in LINES {
        let answer = match line.strip_prefix("#") {
            Some(text) => directive(alloc, &mut macros, text)?,
            None => expanded(alloc, &macros, line, 1_000_000)?,
        };
        assert_eq!(rt; answer.as_str(), *wanted);
    }
    let few = expanded(alloc, &macros, "id(a) s(a)", 3)?;
    assert_eq!(rt; few.as_str(), "a + 1 \"a\" left 0");
    let none = expanded(alloc, &macros, "id(a)\ns(a)", 2)?;
    assert_eq!(rt; none.as_str(), "X10 macros 2");
    Ok(())
}

const DEFINITIONS: &[(&str, &str)] = &[
    ("OBJ_LIKE (1-1)", ""),
    ("OBJ_LIKE /* white space */ (1-1) /* other */", ""),
    ("FTN_LIKE(a) ( a )", ""),
    (
        "FTN_LIKE( a )( /* note the white space */ a /* other stuff on this line */ )",
        "",
    ),
    ("OBJ_LIKE (0)", "X3 1"),
    ("OBJ_LIKE (1 - 1)", "X3 1"),
    ("FTN_LIKE(b) ( a )", "X3 1"),
    ("FTN_LIKE(b) ( b )", "X3 1"),
    ("FTN_LIKE (a) ( a )", "X3 1"),
    ("-OBJ_LIKE", ""),
    ("OBJ_LIKE (0)", ""),
    ("", "X2 0"),
    ("1 2", "X2 1"),
    ("defined 1", "X2 1"),
    ("__LINE__ 3", "X2 1"),
    ("__STDC__", "X2 1"),
    ("f(", "X2 1"),
    ("f(a", "X2 1"),
    ("f(a,) a", "X2 1"),
    ("f(a,a) a", "X2 1"),
    ("f(a b) a", "X2 1"),
    ("f(1) 1", "X2 1"),
    ("f(a) #b", "X2 1"),
    ("f(a) a #", "X2 1"),
    ("f(a) ## a", "X2 1"),
    ("f(a) a ##", "X2 1"),
    ("f ##", "X2 1"),
    ("f # b", ""),
];

#[test]
fn definitions_are_taken_or_refused(rt: HostRuntime) -> Result<(), Fail> {
    let alloc = rt.alloc();
    let mut macros = Macros::new(alloc)?;
    for (line, wanted) in DEFINITIONS {
        let answer = directive(alloc, &mut macros, line)?;
        assert_eq!(rt; answer.as_str(), *wanted);
    }
    let name = Bytes::from_vec(b"OBJ_LIKE".to_vec(alloc)?);
    assert!(rt; macros.is_defined(&name));
    assert!(rt; is_fixed(b"defined"));
    directive(alloc, &mut macros, "-OBJ_LIKE")?;
    assert!(rt; !macros.is_defined(&name));
    Ok(())
}

// So many calls of `id` inside each other.
fn nested(alloc: Global, depth: u32) -> Result<String, AllocError> {
    let mut text = String::new(alloc);
    for _ in 0..depth {
        text.push_str("id(")?;
    }
    text.push_str("1")?;
    for _ in 0..depth {
        text.push_str(")")?;
    }
    Ok(text)
}

#[test]
fn two_hundred_arguments_stand_inside_each_other(rt: HostRuntime) -> Result<(), Fail> {
    let alloc = rt.alloc();
    let mut macros = Macros::new(alloc)?;
    directive(alloc, &mut macros, "id(x) x")?;
    for (depth, wanted) in [(200, "1"), (201, "X10 macros 1")] {
        let text = nested(alloc, depth)?;
        let answer = expanded(alloc, &macros, text.as_str(), 1_000_000)?;
        assert_eq!(rt; answer.as_str(), wanted);
    }
    Ok(())
}
