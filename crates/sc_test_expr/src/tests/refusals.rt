// Texts that begin with no expression, from the standard's grammar (ANSI 3.3).

use super::reading::answer;
use sc_parse_expr::{Found, Refused};
use sc_parse_grammar::{Limit, Trouble};
use sc_parse_names::Mark;
use std::alloc::Global;
use std::test::Fail;

fn mark_word(mark: Mark) -> &'static str {
    match mark {
        Mark::Float => "float",
        Mark::Volatile => "volatile",
        Mark::Variadic => "variadic",
        Mark::LongLong => "longlong",
        Mark::Wide => "wide",
        Mark::MultiChar => "multichar",
        Mark::BitField => "bitfield",
        Mark::OldStyle => "oldstyle",
        Mark::ImplicitInt => "implicitint",
    }
}

fn trouble_word(trouble: Trouble) -> &'static str {
    match trouble {
        Trouble::Syntax => "syntax",
        Trouble::LeftOut(mark) => mark_word(mark),
        Trouble::Limit(Limit::Height) => "height",
        Trouble::Limit(Limit::Arguments) => "arguments",
        Trouble::NoMemory => "no memory",
    }
}

pub fn is_refused(answer: &Result<Found, Refused>, word: &str, line: u32) -> bool {
    match answer {
        Ok(_) => false,
        Err(refused) => refused.line == line && trouble_word(refused.trouble) == word,
    }
}

/// A text, why it is refused, and the line.
const REFUSALS: &[(&str, &str, u32)] = &[
    ("", "syntax", 1),
    ("; 1", "syntax", 1),
    ("a = b = ;", "syntax", 1),
    ("a\n= b\n\n= ", "syntax", 4),
    ("a\n+\n* / b", "syntax", 3),
    ("a b", "syntax", 1),
    ("1 2", "syntax", 1),
    ("a ? b", "syntax", 1),
    ("a ? b;", "syntax", 1),
    ("a ? : b", "syntax", 1),
    ("a + b = c", "syntax", 1),
    ("(int) a = b", "syntax", 1),
    ("a ? b : c = d", "syntax", 1),
    ("++ (T) a", "syntax", 1),
    ("sizeof (int) a", "syntax", 1),
    ("sizeof (int)[3]", "syntax", 1),
    ("sizeof T", "syntax", 1),
    ("(a", "syntax", 1),
    ("a[b;", "syntax", 1),
    ("a[]", "syntax", 1),
    ("a(b,)", "syntax", 1),
    ("a(,b)", "syntax", 1),
    ("()", "syntax", 1),
    ("(T T) a", "syntax", 1),
    ("T", "syntax", 1),
    ("a =\nT * b", "syntax", 2),
    ("(V) a", "syntax", 1),
    ("a.T + b.1", "syntax", 1),
    ("(int a) b", "syntax", 1),
    ("(static int) a", "syntax", 1),
    ("(struct { }) a", "syntax", 1),
    ("(enum { }) a", "syntax", 1),
    ("08", "syntax", 1),
    ("a @ b", "syntax", 1),
    ("__offsetof(T)", "syntax", 1),
    ("(float) a", "float", 1),
    ("a +\ndouble", "float", 2),
    ("(volatile int) a", "volatile", 1),
    ("(union { }) a", "syntax", 1),
    ("goto", "syntax", 1),
    ("(int (*)(int, ...)) a", "variadic", 1),
    ("(long long) a", "longlong", 1),
    ("a + L'b'", "wide", 1),
    ("a +\n\n'bc'", "multichar", 3),
    ("(struct {\nint m : 1; }) a", "bitfield", 2),
    ("(int (*)(a)) b", "oldstyle", 1),
    ("(const) a", "implicitint", 1),
];

#[test]
fn refusals(rt: HostRuntime) -> Result<(), Fail> {
    let alloc = rt.alloc();
    for (text, word, line) in REFUSALS {
        assert!(rt; is_refused(&answer(alloc, text), word, *line), "{text}");
    }
    Ok(())
}
