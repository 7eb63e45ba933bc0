// Labels and `goto` (ANSI 3.6.1, 3.6.6.1), and the labels of a `switch` in their order.
use crate::answers::{checked, with_lines};
use sc_base::NoMemory;
use sc_core::{Core, CoreStmt, LabelAt, SwitchLabel};
use std::alloc::Global;
use std::test::Fail;

/// A line for each: the text, and what the checker answers.
pub const JUMPS: &str = "void f(void) { a: ; goto a; } => taken
void f(void) { goto a; a: ; } => taken
void f(void) { a: goto a; } => taken
void f(void) { goto@a; } => X6 1
void f(void) {@goto a; } void g(void) { a: ; } => X6 2
void f(void) { a: ;@a: ; } => X7 2
void f(void) {@a:@a: ; } => X7 2
void f(void) {@a:@{ a: ; } } => X7 2
void f(void) {@a:@und; } => X6 3
void f(void) { a: ; } void g(void) { a: ; goto a; } => taken
void f(int a) { a: a = 1; goto a; } => taken
typedef int T; void f(void) { T: ; goto T; } => taken
typedef int T; void f(void) { ; T: ; goto T; } => taken
void f(int x) { if (x) a: ; } => taken
void f(int x) { if (x) a: ; goto a; } => X9 gotoin 1
void f(int x) { if (x) ; else a: ; goto a; } => X9 gotoin 1
void f(int x) { while (x) a: ; goto a; } => X9 gotoin 1
void f(int x) { switch (x) a: case 1: ; } => taken
void f(int x) { switch (x) a: case 1: ; goto a; } => X9 gotoin 1
void f(int x) { switch (x) { a: case 1: ; case 2: b: ; goto a; goto b; } } => taken
void f(int x) { switch (x) { { a: case 1: ; } } } => X9 casedepth 1
void f(int x) { switch (x) { case 1: a: ;@case 2: a: ; } } => X7 2
void f(int x) { while (x) { goto out; } out: ; } => taken
void f(int x) { do { a: ; goto a; } while (x); } => taken
void f(int x) { for (; ; ) { a: break; } goto a; } => X9 gotoin 1
void f(int x) { if (x) { a: ; goto a; } else goto b; b: ; } => taken
void f(int x) { { { goto in; } in: ; } } => taken
void f(int x) { { in: ; } goto in; } => X9 gotoin 1
void f(int x) {@goto in; { in: ; } } => X9 gotoin 2
void f(int x) { { goto b; { b: ; } } } => X9 gotoin 1
void f(int x) { goto a;@goto b; { b: ; }@goto c; a: ; } => X9 gotoin 2
void f(int x) {@goto c;@goto b; { b: ; } } => X6 2
void f(int x) {@goto c;@und; } => X6 3
void f(int x) { x: x = 1; goto x; } => taken
int f(void) { return 0; }@int f(void)@{@goto c; } => X6 4
struct s { char a[1048576]; };@void f(void) { struct s a, b, c, d, e, f, g, h, i, j, k, l, m, n, o, p;@goto q; } => X6 3
int (*f(int a))(struct t { int x; } *q) { return 0; }@struct u { int y; } w;@int main(void) { f(1)(&w); return 0; } => X7 3
int f(struct s { int m; } *p) { struct s x; x.m = p->m; return x.m; } => taken
int f(struct s *p) { struct s { int m; }; return p->m; } => taken
int f(enum { A = 3 } e) { return A; } => taken
int f(enum { A = 3 } e) { return A; } int i = A; => X6 1
int (*f(struct s { int m; } *p))(int) { return p->m ? 0 : (int (*)(int))0; } => taken
int f(int a, int b[sizeof a]) { int a; return 0; } => X7 1";

/// A text of one function whose body has a `switch` last, and the labels of the body's list, each with its place there, and those of
/// the `switch`.
const LISTS: &str = "void f(int x) { a: ; switch (x) ; } => 0.0 |
void f(int x) { goto b; a: ; b: ; switch (x) ; } => 1.1 0.2 |
void f(int x) { ; a: b: ; switch (x) ; } => 1.1 0.1 |
void f(int x) { int y = 1; a: ; switch (x) ; } => 0.1 |
void f(int x) { { a: ; } if (x) b: ; c: switch (x) ; } => 2.2 |
void f(int x) { switch (x) { case 3: case 1: ; default: case 2: ; } } => | 3.0 1.0 d.1 2.1
void f(int x) { switch (x) case 1: case 0: ; } => | 1.0 0.0
void f(int x) { switch (x) { case 1: switch (x) case 5: ; case 2: ; } } => | 1.0 2.1";

fn put_number(alloc: Global, text: &mut String, number: u32) -> Result<(), NoMemory> {
    match format!(in alloc; "{number}") {
        Ok(digits) => Ok(text.push_str(digits.as_str())?),
        Err(_) => Err(NoMemory),
    }
}

fn put_labels(alloc: Global, text: &mut String, labels: &[LabelAt]) -> Result<(), NoMemory> {
    for l in labels {
        put_number(alloc, text, l.label)?;
        text.push_str(".")?;
        put_number(alloc, text, l.at)?;
        text.push_str(" ")?;
    }
    Ok(())
}

fn put_value(alloc: Global, text: &mut String, value: Option<u32>) -> Result<(), NoMemory> {
    match value {
        Some(value) => put_number(alloc, text, value),
        None => Ok(text.push_str("d")?),
    }
}

fn put_cases(alloc: Global, text: &mut String, labels: &[SwitchLabel]) -> Result<(), NoMemory> {
    text.push_str("|")?;
    for l in labels {
        text.push_str(" ")?;
        put_value(alloc, text, l.value)?;
        text.push_str(".")?;
        put_number(alloc, text, l.at)?;
    }
    Ok(())
}

fn put_last(alloc: Global, text: &mut String, s: &CoreStmt) -> Result<(), NoMemory> {
    match s {
        CoreStmt::Label(_, below) => match below.get() {
            CoreStmt::Switch(_, _, labels, _) => put_cases(alloc, text, labels.as_slice()),
            _ => Ok(()),
        },
        CoreStmt::Switch(_, _, labels, _) => put_cases(alloc, text, labels.as_slice()),
        _ => Ok(()),
    }
}

fn put_body(alloc: Global, text: &mut String, body: &CoreStmt) -> Result<(), NoMemory> {
    match body {
        CoreStmt::Block(_, _, labels, items) => {
            put_labels(alloc, text, labels.as_slice())?;
            match items.as_slice().last() {
                Some(last) => put_last(alloc, text, last.get()),
                None => Ok(()),
            }
        }
        _ => Ok(()),
    }
}

fn shown(alloc: Global, core: &Core) -> Result<String, NoMemory> {
    let mut text = String::new(alloc);
    for f in core.funs.as_slice() {
        put_body(alloc, &mut text, f.get().body.get())?;
    }
    Ok(text)
}

fn is_shown(alloc: Global, text: &str, wanted: &str) -> Result<bool, NoMemory> {
    let unit = with_lines(alloc, text)?;
    match checked(alloc, unit.as_str()) {
        Ok(core) => {
            let lists = shown(alloc, &core)?;
            Ok(lists.as_str() == wanted)
        }
        Err(_) => Ok(false),
    }
}

fn is_right(alloc: Global, line: &str) -> bool {
    match line.split_once(" => ") {
        Some((text, wanted)) => match is_shown(alloc, text, wanted) {
            Ok(right) => right,
            Err(_) => false,
        },
        None => false,
    }
}

#[test]
fn lists_of_labels(rt: HostRuntime) -> Result<(), Fail> {
    let alloc = rt.alloc();
    for line in LISTS.lines() {
        assert!(rt; is_right(alloc, line), "{line}");
    }
    Ok(())
}
