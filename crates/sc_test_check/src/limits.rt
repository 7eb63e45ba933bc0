// The limits that the checker decides, and the largest and deepest units that it takes.
use crate::answers::{checked, is_answer};
use sc_base::NoMemory;
use std::alloc::Global;
use std::test::Fail;

/// How many, the answer, and the texts: what stands before, what is repeated with a number behind it, what stands behind the number, and
/// what stands behind all.
const COUNTS: &[(u32, &str, [&str; 4])] = &[
    (
        1023,
        "taken",
        [
            "void f(int i) { switch (i) {",
            " case ",
            ":",
            " ; default: ; } }",
        ],
    ),
    (
        1024,
        "X10 cases 2",
        ["void f(int i) { switch (i) {\n", " case ", ": ;", " } }"],
    ),
    (
        1023,
        "taken",
        ["void f(int i) { switch (i) {", " case ", ": ;", " } }"],
    ),
    (1499, "taken", ["void f(void) {", " a", ":", " ; }"]),
    (1500, "X10 height 1", ["void f(void) {", " a", ":", " ; }"]),
    (
        10000,
        "taken",
        ["void f(void) {", " a", ": ;", " goto a0; goto a9999; }"],
    ),
    (
        10000,
        "X6 2",
        ["void f(void) { goto a0; {\n", " goto a", ";", " } a0: ; }"],
    ),
    (10000, "taken", ["", "int a", ";", " int *p = &a9999;"]),
    (10000, "taken", ["", "int f", "(int a) { return a; }", ""]),
    (
        10000,
        "taken",
        ["void f(void) {", " int a", ";", " a9999 = 1; }"],
    ),
    (
        10000,
        "taken",
        ["void f(void) {", " static int a", " = 1;", " a9999 = 2; }"],
    ),
    (10000, "taken", ["enum {", " a", ",", " }; int b[a9999];"]),
    (
        10000,
        "taken",
        ["struct s {", " int a", ";", " } x; int *p = &x.a9999;"],
    ),
    (
        10000,
        "taken",
        ["", "struct s", " { int m; };", " struct s9999 x;"],
    ),
    (10000, "taken", ["", "typedef int t", ";", " t9999 x;"]),
    (10000, "taken", ["char *p[] = {", " \"", "\",", " };"]),
    (65536, "taken", ["char a[65536] = {", " ", ",", " };"]),
    (65536, "X7 1", ["char a[65535] = {", " ", ",", " };"]),
    (
        16384,
        "taken",
        ["void f(void) { int a[16384] = {", " ", ",", " }; }"],
    ),
    (16384, "taken", ["char a[] = \"", "", "", "\";"]),
];

/// How many are inside each other, and the texts: what stands before, what is repeated, what stands between, what is repeated there, and
/// what stands behind.
const NESTS: &[(u32, [&str; 5])] = &[
    (199, ["int a = ", "- ", "1", "", ";"]),
    (199, ["int f(int a) { return ", "~ ", "a", "", "; }"]),
    (199, ["int f(int a) { return ", "f(", "a", ")", "; }"]),
    (199, ["int f(int a) { return ", "(char)", "a", "", "; }"]),
    (199, ["int f(int a) { return ", "a = ", "a", "", "; }"]),
    (199, ["int f(int a) { return ", "a ? a : ", "a", "", "; }"]),
    (199, ["int f(int a) { return ", "a + (", "a", ")", "; }"]),
    (199, ["int f(int a) { return ", "a, ", "a", "", "; }"]),
    (199, ["int f(int a) { return ", "sizeof ", "a", "", "; }"]),
    (499, ["int f(int a) { return ", "(", "a", ")", "; }"]),
    (31, ["int ", "*", "p", "", ";"]),
    (32, ["int ", "*", "p", "", ";"]),
    (32, ["int p", "[1]", "", "", ";"]),
    (126, ["void f(void) {", " {", " int a;", " }", " }"]),
    (1499, ["void f(int i) {", " while (i)", " ;", "", " }"]),
    (1499, ["void f(int i) {", " if (i) ; else", " ;", "", " }"]),
    (
        499,
        ["struct s {", " struct {", " int a;", " } b;", " } x;"],
    ),
];

fn put_counted(
    text: &mut String,
    alloc: Global,
    count: u32,
    parts: &[&str; 4],
) -> Result<(), NoMemory> {
    let [_, each, close, _] = parts;
    for number in 0..count {
        let digits = format!(in alloc; "{number}")?;
        text.push_str(each)?;
        text.push_str(digits.as_str())?;
        text.push_str(close)?;
    }
    Ok(())
}

fn counted(alloc: Global, count: u32, parts: &[&str; 4]) -> Result<String, NoMemory> {
    let [before, _, _, behind] = parts;
    let mut text = String::new(alloc);
    text.push_str(before)?;
    put_counted(&mut text, alloc, count, parts)?;
    text.push_str(behind)?;
    Ok(text)
}

fn is_count_right(alloc: Global, count: u32, parts: &[&str; 4], wanted: &str) -> bool {
    match counted(alloc, count, parts) {
        Ok(text) => is_answer(alloc, &checked(alloc, text.as_str()), wanted),
        Err(_) => false,
    }
}

#[test]
fn counts(rt: HostRuntime) -> Result<(), Fail> {
    let alloc = rt.alloc();
    for (count, wanted, parts) in COUNTS {
        let [before, each, _, _] = parts;
        assert!(rt;
            is_count_right(alloc, *count, parts, wanted),
            "{count} {before} {each}"
        );
    }
    Ok(())
}

fn repeat(text: &mut String, count: u32, each: &str) -> Result<(), NoMemory> {
    for _ in 0..count {
        text.push_str(each)?;
    }
    Ok(())
}

fn nested(alloc: Global, count: u32, parts: &[&str; 5]) -> Result<String, NoMemory> {
    let [before, each, between, close, behind] = parts;
    let mut text = String::new(alloc);
    text.push_str(before)?;
    repeat(&mut text, count, each)?;
    text.push_str(between)?;
    repeat(&mut text, count, close)?;
    text.push_str(behind)?;
    Ok(text)
}

fn is_nest_taken(alloc: Global, count: u32, parts: &[&str; 5]) -> bool {
    match nested(alloc, count, parts) {
        Ok(text) => checked(alloc, text.as_str()).is_ok(),
        Err(_) => false,
    }
}

#[test]
fn nests(rt: HostRuntime) -> Result<(), Fail> {
    let alloc = rt.alloc();
    for (count, parts) in NESTS {
        let [before, each, _, _, _] = parts;
        assert!(rt;
            is_nest_taken(alloc, *count, parts),
            "{count} {before} {each}"
        );
    }
    Ok(())
}
