// What a module holds: births, frames, initial contents, declarations (ANSI 3.1.2.4, 3.5.4, 3.5.7, 3.7).
use crate::answers::{checked, with_lines};
use sc_base::{Bytes, NoMemory};
use sc_tool_text::lines;
use std::alloc::Global;
use std::test::Fail;

/// A text, and one of the lines of its module.
const MODULES: &str = "int a, *b; char c; => births a b c
extern int i; int j; => births j
int i; static int j; int i; => births i m:j
int a; int b; int a = 1; => births b a
int a; extern int a; int b = 2, a = 1; => births b a
typedef int T; int f(void); enum { A }; struct s { int m; }; => births
char *p = \"ab\"; int i; => births p \"616200\" i
int i; void f(void) { \"a\"; \"b\"; \"a\"; } int j; => births i \"6100\" \"6200\" j
void f(void) { \"a\"; } int i; char *p = \"a\"; => births \"6100\" i p
char *p = \"a\"; char *q = \"a\"; => births p \"6100\" q
char *p = \"a\" \"b\"; char *q = \"ab\"; => births p \"616200\" q
char *p[] = { \"b\", \"a\" }; => births p \"6200\" \"6100\"
char s[] = \"ab\"; => births s
char s[2][3] = { \"ab\", { \"cd\" } }; => births s
int i = sizeof \"ab\"; char *p = \"ab\"; => births i p \"616200\"
void f(void) { char s[] = \"ab\"; char *p = \"cd\"; } => births \"636400\"
void f(void) { static int s; } int g; => births m:f.s.0 g
void f(void) { static int s; { static int s; static int t; } } => births m:f.s.0 m:f.s.1 m:f.t.0
void f(void) { static int s; } void g(void) { static int s; } => births m:f.s.0 m:g.s.0
void f(void) { static char *p = \"a\"; \"a\"; } => births m:f.p.0 \"6100\"
void f(void) { extern int i; int j; i = j; } => births
int i = 1; => object i 01000000
int i = -2; => object i feffffff
short h = 258; => object h 0201
char c = 300; => object c 2c
signed char c = -1; => object c ff
unsigned u = 4294967295; => object u ffffffff
long l = 305419896; => object l 78563412
int i; => object i 00000000
const int i = 3; => object i const 03000000
static int i = 7; => object m:i 07000000
enum e { A = 5 } x = A; => object x 05000000
char s[] = \"ab\"; => object s 616200
char s[2] = \"ab\"; => object s 6162
char s[5] = \"ab\"; => object s 6162000000
const char s[] = \"a\"; => object s const 6100
int a[]; => object a 00000000
int a[] = { 1, 2 }; => object a 0100000002000000
int a[3] = { 1 }; => object a 010000000000000000000000
const int a[2] = { 1 }; => object a const 0100000000000000
struct s { char c; int i; } x = { 1, 2 }; => object x 0100000002000000
struct s { char c; short h; char d; } x = { 1, 2, 3 }; => object x 010002000300
struct s { char c[3]; int i; } x = { \"ab\", 1 }; => object x 6162000001000000
struct s { char c[3]; char d; } x = { 'a', 'b' }; => object x 61620000
struct s { int m, n; } a[2] = { 1, 2, 3 }; => object a 01000000020000000300000000000000
struct n { struct { char m, n; } in; char o; } a[2] = { { { 1 }, 2 }, 3, 4, 5 }; => object a 010002030405
char a[2][2] = { { 1 }, 2, 3 }; => object a 01000203
char a[][2] = { 1, 2, 3 }; => object a 01020300
char a[2][3] = { \"ab\", \"c\" }; => object a 616200630000
struct s { const int m; } x; => object x 00000000
const struct s { int m; } x; => object x const 00000000
int *const p = 0; => object p const 00000000
const int *p = 0; => object p 00000000
int *p = 1 - 1; => object p 00000000
int *p = (int *)(void *)0; => object p 00000000
int i; int *p = &i; => object p <i+0>
extern int i; int *p = &i; => object p <i+0>
static int i; int *p = &i; => object p <m:i+0>
int a[3]; int *p = a + 2; => object p <a+8>
int a[3]; int *p = 3 + a; => object p <a+12>
int a[3]; int *p = a - 1; => object p <a+4294967292>
int a[3]; char *p = (char *)a + 1; => object p <a+1>
int a[2][3]; int *p = &a[1][2]; => object p <a+20>
int a[2][3]; int *p = *(a + 1) - 1; => object p <a+8>
struct s { int m, n; } x; int *p = &x.n; => object p <x+4>
struct s { int m, n; } a[2]; int *p = &(a + 1)->n; => object p <a+12>
struct s { int m; struct s *next; } x = { 1, &x }; => object x 01000000<x+0>
char *p = \"ab\" + 1; => object p <\"616200\"+1>
char *p = &\"ab\"[2]; => object p <\"616200\"+2>
struct s { char c; char *p; } x = { 1, \"a\" }; => object x 01000000<\"6100\"+0>
int f(void); int (*p)(void) = f; => object p <f+0>
static int f(void) { return 0; } int (*p)(void) = &f; => object p <m:f+0>
int f(void); int (*p[2])(void) = { f }; => object p <f+0>00000000
void f(void) { static int s = 5; } => object m:f.s.0 05000000
void f(void) { static int i; static int *p = &i; } => object m:f.p.0 <m:f.i.0+0>
void f(void) { static char s[] = \"a\"; } => object m:f.s.0 6100
void f(void) { } => function f 16 | |
static void f(void) { } => function :f 16 | |
int f(int a, char b) { return a + b; } => function f 32 | 8+4 16+1 |
void f(void) { int x; } => function f 16 | | 0+4
void f(void) { int x = 1; } => function f 32 | | 4+4
void f(const int a) { } => function f 16 | 0+4c |
void f(int a[3]) { } => function f 16 | 0+4 |
void f(void) { const int x = 1; } => function f 32 | | 4+4c
void f(void) { const char s[] = \"a\"; } => function f 16 | | 4+2c
void f(void) { char s[] = \"ab\"; } => function f 16 | | 4+3
void f(void) { static int s; extern int e; int x; } => function f 16 | | 0+4
struct s { int m[3]; }; void f(void) { struct s x; } => function f 32 | | 0+12
void f(int a) { char b[5]; { int c; } { short d; a; } } => function f 48 | 4+4 | 12+5 | 20+4 | 28+2
void f(void) { { } { { } } } => function f 16 | | | | |
void f(void) { { int a; { char b; } } { short c; } } => function f 32 | | | 0+4 | 8+1 | 12+2
void f(int a) { a, a, a; } => function f 32 | 8+4 |
void f(int a) { -(a + a); } => function f 32 | 8+4 |
void f(int a) { a ? a : a; } => function f 32 | 12+4 |
void f(int a) { ((a + a) + a) + a; } => function f 32 | 8+4 |
void f(int a) { a + (a + (a + a)); } => function f 32 | 16+4 |
void f(int a) { while (a + a) ; for (a; a + (a + a); ) ; } => function f 32 | 12+4 |
void f(int a) { switch (a) { case 1 + (2 + (3 + 4)): ; } } => function f 32 | 4+4 | |
void f(void) { char b[1 + (2 + 3)]; } => function f 16 | | 0+6
void f(void) { static int s = 1 + (2 + 3); } => function f 16 | |
void f(void) { int a[2] = { 1, 1 + (1 + 1) }; } => function f 32 | | 12+8
void f(int a) { sizeof(a + (a + a)); } => function f 32 | 4+4 |
int g(int, int); void f(int a) { g(a, a); } => function f 32 | 12+4 |
void g(int, int, int, int, int, int, int, int); void f(void) { int x; g(1, 2, 3, 4, 5, 6, 7, 8); } => function f 64 | | 36+4
void g(int, int, int, int, int, int, int, int, int); void f(void) { int x; g(1, 2, 3, 4, 5, 6, 7, 8, 9); } => function f 64 | | 44+4
int g(int, int, int, int, int, int, int, int, int); void f(void) { int x; sizeof g(1, 2, 3, 4, 5, 6, 7, 8, 9); } => function f 32 | | 4+4
int f(void); => declared f at 1
int f(void) { return 0; } => declared f defined at 1
static int i; => declared m:i defined at 1
extern int i; => declared i at 1
int@i; => declared i defined at 2
void f(void) {@extern int@i; } => declared i at 3
struct s { int m, n; }; int *p = &((struct s *)0)->m; => object p 00000000
int i = sizeof(union { char c[5]; int i; }); => object i 08000000
union u { char c; int i; }; int i = 1 + __offsetof(union u, i); => object i 01000000
union { char c[5]; int i; } x; => object x 0000000000000000
union u { char c[2]; int i; } x = { { 1 } }; => object x 01000000
union { char c; short h; } a[2] = { 1, 2 }; => object a 01000200
struct s { union { char c; int i; } u; char n; } x = { { 1 }, 2 }; => object x 0100000002000000
struct { char c; union { char a[3]; short h; } u; } x = { 1, { { 2 } } }; => object x 010002000000
struct s { int m; union { char c; int i; } u; } x; int *p = &x.u.i; => object p <x+4>
union { int *p; char c; } x = { 0 }; int **q = &x.p; => object q <x+0>
union u { int i; char c[5]; }; void f(void) { union u x; } => function f 32 | | 0+8";

fn holds(all: &[Bytes], wanted: &[u8]) -> bool {
    for line in all {
        if line.as_slice() == wanted {
            return true;
        }
    }
    false
}

fn is_shown(alloc: Global, text: &str, wanted: &str) -> Result<bool, NoMemory> {
    let unit = with_lines(alloc, text)?;
    match checked(alloc, unit.as_str()) {
        Ok(core) => {
            let all = lines(alloc, &core)?;
            Ok(holds(all.as_slice(), wanted.as_bytes()))
        }
        Err(_) => Ok(false),
    }
}

fn is_right(alloc: Global, line: &str) -> bool {
    match line.split_once(" => ") {
        Some((text, wanted)) => match is_shown(alloc, text, wanted) {
            Ok(shown) => shown,
            Err(_) => false,
        },
        None => false,
    }
}

#[test]
fn modules(rt: HostRuntime) -> Result<(), Fail> {
    let alloc = rt.alloc();
    for line in MODULES.lines() {
        assert!(rt; is_right(alloc, line), "{line}");
    }
    Ok(())
}
