// Units and files, and what becomes of them.
use sc_base::{Bytes, Refusal, X};
use sc_lex::Token;
use sc_outside::MemFiles;
use sc_pp::{PpFault, preprocess};
use std::alloc::{AllocError, Global};
use std::collections::BTreeMap;
use std::test::Fail;

// The files beside the unit's own.
const FILES: &[(&str, &str)] = &[
    (
        "q.h",
        "#define Q 7\nint q;\nint r = __LINE__; char *n = __FILE__;\n",
    ),
    ("self.h", "a\n#include \"self.h\"\n"),
    ("guard.h", "#ifndef G\n#define G\nint g;\n#endif\n"),
    ("bad.h", "\n#nothing\n"),
    ("open.h", "#if 1\n"),
    ("stray.h", "#endif\n"),
    ("string.h", "int own;\n"),
    ("call.h", "f\n"),
];

// A unit `m.c`, and what becomes of it: the spellings of its tokens with the line where it changes, or a refusal.
const UNITS: &[(&str, &str)] = &[
    ("int a;\nint b;", "1 int a ; 2 int b ;"),
    // an included file
    (
        "#include \"q.h\"\nQ",
        "1 int q ; int r = 3 ; char * n = \"q.h\" ; 2 7",
    ),
    ("#include \"r.h\"", "X4 m.c:1"),
    (
        "#define H \"q.h\"\n#define X H\n#include X\n",
        "3 int q ; int r = 3 ; char * n = \"q.h\" ;",
    ),
    ("#include \"m.c\"", "X10 include m.c:1"),
    ("#include \"self.h\"", "X10 include self.h:2"),
    ("#include \"guard.h\"\n#include \"guard.h\"\n", "1 int g ;"),
    ("\n#include \"bad.h\"\n#error", "X2 bad.h:2"),
    ("#include \"open.h\"\n#endif", "X2 open.h:1"),
    ("#if 1\n#include \"stray.h\"\n#endif", "X2 stray.h:1"),
    ("#include q.h", "X2 m.c:1"),
    ("#include \"\"", "X2 m.c:1"),
    ("#include <>", "X2 m.c:1"),
    ("#include \"q.h\" x", "X2 m.c:1"),
    ("#include <q.h>", "X4 m.c:1"),
    ("#include <float.h>", "X4 m.c:1"),
    ("#include \"string.h\"", "1 int own ;"),
    ("#define f(x) x\n#include \"call.h\"\n(1)", "2 f 3 ( 1 )"),
    // built-in headers
    (
        "#include <stddef.h>\n#include <stddef.h>\nNULL",
        "1 typedef unsigned int size_t ; typedef int ptrdiff_t ; 3 ( ( void * ) 0 )",
    ),
    (
        "#include \"stddef.h\"\noffsetof(s, m)",
        "1 typedef unsigned int size_t ; typedef int ptrdiff_t ; 2 __offsetof ( s , m )",
    ),
    (
        "#include <limits.h>\nINT_MIN UINT_MAX",
        "2 ( - 2147483647 - 1 ) 4294967295u",
    ),
    ("#define L <limits.h>\n#include L\nCHAR_BIT", "3 8"),
    (
        "#include <assert.h>\nassert(x);\n#define NDEBUG\n#include <assert.h>\nassert(x);",
        "1 void _assert_fail ( const char * , const char * , int ) ; 2 ( ( x ) ? ( void ) 0 : _assert_fail ( \"x\" , \"m.c\" , 2 ) ) ; 4 void _assert_fail ( const char * , const char * , int ) ; 5 ( ( void ) 0 ) ;",
    ),
    // conditionals
    ("#if 1 / 0\n#endif", "X2 m.c:1"),
    (
        "#if 0\na\n#elif 1\nb\n#elif 1 / 0\nc\n#else\nd\n#endif\ne",
        "4 b 10 e",
    ),
    (
        "#if 0\n#if 1 / 0\n#else x\n#endif x\n#nothing\n#else\nf\n#endif",
        "7 f",
    ),
    (
        "#ifdef A\na\n#else\nb\n#endif\n#define A\n#ifndef A\nc\n#else\nd\n#endif",
        "4 b 10 d",
    ),
    (
        "#define A\n#if defined A && !defined(B) && B == 0\na\n#endif",
        "3 a",
    ),
    ("#if defined\n#endif", "X2 m.c:1"),
    ("#if defined(A\n#endif", "X2 m.c:1"),
    ("#if 1 ? 2\n#endif", "X2 m.c:1"),
    ("#ifdef 1\n#endif", "X2 m.c:1"),
    ("#ifdef A B\n#endif", "X2 m.c:1"),
    ("#if 1\n#else x\n#endif", "X2 m.c:2"),
    ("#if 1\n#endif x", "X2 m.c:2"),
    ("#if 1\n#else\n#else\n#endif", "X2 m.c:3"),
    ("#if 0\n#if 0\n#else\n#elif 1\n#endif\n#endif", "X2 m.c:4"),
    ("a\n#else", "X2 m.c:2"),
    ("a\n#elif 1", "X2 m.c:2"),
    ("#endif\n#if 1", "X2 m.c:1"),
    ("\n#if 0\n#if 1\n#error", "X2 m.c:2"),
    ("\n#if 0\n#if 1\n#endif\n#error", "X2 m.c:2"),
    // other directives
    ("#define __LINE__ 3", "X2 m.c:1"),
    ("#undef __FILE__", "X2 m.c:1"),
    ("#undef A B", "X2 m.c:1"),
    (
        "#define A 1\n#undef A\n#undef A\nA __STDC__ __LINE__",
        "4 A 1 4",
    ),
    ("#define A 1\n#define A 2", "X3 m.c:2"),
    ("#define \\\n 3", "X2 m.c:1"),
    ("#error", "X2 m.c:1"),
    ("#pragma x", "X9 pragma m.c:1"),
    ("#line 3", "X9 line m.c:1"),
    ("#nothing", "X2 m.c:1"),
    ("# 3", "X2 m.c:1"),
    ("#\na # b", "2 a # b"),
    ("%:define", "1 % : define"),
    ("??=define A ??/\n 1\nA", "3 1"),
    // macros over lines
    ("#define f(x) x\nf\n(1,\n2)", "X3 m.c:2"),
    ("#define f(x) x\nf(\n1\n) 2", "2 1 4 2"),
    ("#define f(x) x\nf(1\n#define g\n)", "X3 m.c:2"),
    ("#define p(x) x ## +\np(1)\n#error", "X9 paste m.c:2"),
    // the examples of ANSI 3.8.3.5, and more calls
    (
        "#define x 3\n#define f(a) f(x * (a))\n#undef x\n#define x 2\n#define g f\n#define z z[0]\n#define h g(~\n#define m(a) a(w)\n#define w 0,1\n#define t(a) a\nf(y+1) + f(f(z)) % t(t(g)(0) + t)(1);\ng(x+(3,4)-w) | h 5) & m\n(f)^m(m);",
        "11 f ( 2 * ( y + 1 ) ) + f ( 2 * ( f ( 2 * ( z [ 0 ] ) ) ) ) % f ( 2 * ( 0 ) ) + t ( 1 ) ; 12 f ( 2 * ( 2 + ( 3 , 4 ) - 0 , 1 ) ) | f ( 2 * ( ~ 5 ) ) & f ( 2 * ( 0 , 1 ) ) 13 ^ m ( 0 , 1 ) ;",
    ),
    (
        "#define str(s) # s\n#define xstr(s) str(s)\n#define INCFILE(n) vers ## n\n#define glue(a, b) a ## b\n#define xglue(a, b) glue(a, b)\n#define HIGHLOW \"hello\"\n#define LOW LOW \", world\"\nxstr(INCFILE(2).h)\nglue(HIGH, LOW);\nxglue(HIGH, LOW)",
        "8 \"vers2.h\" 9 \"hello\" ; 10 \"hello\" \", world\"",
    ),
    (
        "#define OBJ_LIKE (1-1)\n#define OBJ_LIKE /* white space */ (1-1) /* other */\n#define OBJ_LIKE (1 - 1)",
        "X3 m.c:3",
    ),
    (
        "#define f(x) x f\n#define a a + 1\nf(1)(2)\na",
        "3 1 f ( 2 ) 4 a + 1",
    ),
    (
        "#define s(x) #x\n#define p(x, y) x ## y\ns( a  + \"b\\n\" )\np(1, 2)\np(1)",
        "X3 m.c:5",
    ),
    (
        "#define s(x) #x\n#define p(x, y) x ## y\ns( a  + \"b\\n\" )\np(1, 2)",
        "3 \"a + \\\"b\\\\n\\\"\" 4 12",
    ),
    ("a/* x */b ??( 1", "1 a b [ 1"),
    ("/* x", "X1 m.c:1"),
    // the lexer's refusals in text order
    ("#error\n/*", "X2 m.c:1"),
    ("a\n/*\n#error", "X1 m.c:2"),
    ("#if 0\n/*", "X2 m.c:1"),
    ("#if 0\n#endif\n/*", "X1 m.c:3"),
    ("#define f(x) x\nf(1 /*", "X3 m.c:2"),
    ("#define f(x) x\nf(1) /*", "X1 m.c:2"),
];

fn files(alloc: Global, unit: &str) -> Result<MemFiles, AllocError> {
    let mut files = BTreeMap::new(alloc);
    for (name, text) in FILES {
        let text = Vec::from_slice(alloc, text.as_bytes())?;
        files.insert(String::from_str(alloc, name)?, Bytes::from_vec(text))?;
    }
    let text = Vec::from_slice(alloc, unit.as_bytes())?;
    files.insert(String::from_str(alloc, "m.c")?, Bytes::from_vec(text))?;
    Ok(MemFiles::new(alloc, files, Vec::new(alloc)))
}

fn push_text(out: &mut String, text: &[u8]) -> Result<(), AllocError> {
    match str::from_utf8(text) {
        Ok(text) => out.push_str(text),
        Err(_) => out.push_str("?"),
    }
}

// The spellings of tokens, with the line before the first of each line.
fn spelled(alloc: Global, tokens: &[Token]) -> Result<String, AllocError> {
    let mut out = String::new(alloc);
    let mut line = 0;
    for token in tokens {
        if !out.is_empty() {
            out.push_str(" ")?;
        }
        if token.line != line {
            line = token.line;
            let number = format!(in alloc; "{line} ")?;
            out.push_str(number.as_str())?;
        }
        push_text(&mut out, token.text.as_slice())?;
    }
    Ok(out)
}

fn kind(out: &mut String, kind: &X) -> Result<(), AllocError> {
    match kind {
        X::X1 => out.push_str("X1"),
        X::X2 => out.push_str("X2"),
        X::X3 => out.push_str("X3"),
        X::X4 => out.push_str("X4"),
        X::X9(word) => {
            out.push_str("X9 ")?;
            push_text(out, word.as_slice())
        }
        X::X10(word) => {
            out.push_str("X10 ")?;
            push_text(out, word.as_slice())
        }
        _ => out.push_str("X"),
    }
}

fn refusal(alloc: Global, refusal: &Refusal) -> Result<String, AllocError> {
    let mut out = String::new(alloc);
    kind(&mut out, &refusal.kind)?;
    out.push_str(" ")?;
    push_text(&mut out, refusal.file.as_slice())?;
    let line = refusal.line;
    let number = format!(in alloc; ":{line}")?;
    out.push_str(number.as_str())?;
    Ok(out)
}

fn answer(alloc: Global, name: &str, unit: &str) -> Result<String, AllocError> {
    let mut files = files(alloc, unit)?;
    match preprocess(alloc, name, &mut files) {
        Ok(tokens) => spelled(alloc, tokens.as_slice()),
        Err(PpFault::Refused(found)) => refusal(alloc, &found),
        Err(PpFault::Missing) => format!(in alloc; "missing"),
        Err(PpFault::TooLong) => format!(in alloc; "too long"),
        Err(PpFault::File(_)) => format!(in alloc; "file"),
        Err(PpFault::NoMemory) => format!(in alloc; "no memory"),
    }
}

#[test]
fn units(rt: HostRuntime) -> Result<(), Fail> {
    for (unit, wanted) in UNITS {
        let found = answer(rt.alloc(), "m.c", unit)?;
        assert_eq!(rt; found.as_str(), *wanted);
    }
    Ok(())
}

#[test]
fn a_file_that_is_not_there(rt: HostRuntime) -> Result<(), Fail> {
    let found = answer(rt.alloc(), "n.c", "")?;
    assert_eq!(rt; found.as_str(), "missing");
    Ok(())
}
