// Expressions and their trees, from the standard's grammar (ANSI 3.3).

use super::reading::{answer, names_of, read};
use super::showing::shows;
use sc_base::Bytes;
use sc_parse_expr::{Found, Refused};
use std::alloc::Global;
use std::test::Fail;

// How many tokens are taken, the text, and the words of the tree. `T` is a type's name, and `V` a variable's.
const TREES: &str = "1 => a => a
3 => (a) => a
1 => 1; 2 => 1 int
1 => a) => a
3 => a + b] => + a b
1 => a: b => a
1 => 2147483647 => 2147483647 int
1 => 2147483648 => 2147483648 unsignedlong
1 => 4294967296 => none
1 => 0x80000000 => 2147483648 unsigned
1 => 017 => 15 int
1 => 1u => 1 unsigned
1 => 1L => 1 long
1 => 1ul => 1 unsignedlong
1 => 'a' => 97 int
1 => '\\n' => 10 int
1 => '\\377' => 255 int
1 => '\\x41' => 65 int
1 => '\\400' => none
1 => '\\\\' => 92 int
1 => \"\\1012\" => \" A2
1 => \"ab\" => \" ab
2 => \"ab\" \"c\" => \" abc
1 => \"\\x100\" => \"none
5 => a + b * c => + a * b c
5 => a * b + c => + * a b c
7 => (a + b) * c => * + a b c
5 => a - b - c => - - a b c
7 => a - (b - c) => - a - b c
7 => a / b % c * d => * % / a b c d
7 => a << b + c >> d => >> << a + b c d
7 => a << b < c << d => < << a b << c d
9 => a < b > c <= d >= e => >= <= > < a b c d e
7 => a < b == c > d => == < a b > c d
5 => a == b != c => != == a b c
7 => a == b & c == d => & == a b == c d
9 => a | b ^ c & d ^ e => | a ^ ^ b & c d e
7 => a | b && c | d => && | a b | c d
7 => a && b || c && d => || && a b && c d
5 => a && b && c => && && a b c
5 => a || b && c => || a && b c
5 => a = b = c => = a = b c
5 => a = b || c => = a || b c
5 => a += b -= c => += a -= b c
5 => a *= b /= c => *= a /= b c
5 => a %= b <<= c => %= a <<= b c
5 => a >>= b &= c => >>= a &= b c
5 => a ^= b |= c => ^= a |= b c
5 => a ? b : c => ? a b c
9 => a ? b : c ? d : e => ? a b ? c d e
9 => a ? b ? c : d : e => ? a ? b c d e
7 => a ? b, c : d => ? a , b c d
9 => a ? b = c : d || e => ? a = b c || d e
5 => a, b, c => , , a b c
7 => a = b, c = d => , = a b = c d
4 => -a * b => * '- a b
4 => a * -b => * a '- b
4 => -a = b => = '- a b
5 => !a + ~b => + '! a '~ b
4 => - - + a => '- '- '+ a
3 => *a++ => '* ++' a
3 => ++a-- => '++ --' a
3 => --*a => '-- '* a
3 => ++-a => '++ '- a
3 => &*a => '& '* a
4 => a[b] => [] a b
9 => a[b, c][d] => [] [] a , b c d
3 => a() => ( a )
8 => a(b, c = d) => ( a b = c d )
10 => a((b, c), d) => ( a , b c d )
7 => a(b)(c) => ( ( a b ) c )
5 => a.b->c => -> . a b c
4 => *a.b => '* . a b
6 => a.b[c] => [] . a b c
6 => (a).b++ => ++' . a b
2 => sizeof a => sizeof a
4 => sizeof a + b => + sizeof a b
4 => sizeof (a) => sizeof a
7 => sizeof (a)[b] => sizeof [] a b
3 => sizeof sizeof a => sizeof sizeof a
4 => sizeof (int) => sizeof() int :
6 => sizeof (int) * a => * sizeof() int : a
4 => sizeof (T) => sizeof() typedef T :
4 => sizeof (V) => sizeof V
7 => sizeof (int[3]) => sizeof() int [n] :
4 => (int) a => cast int : a
5 => (int) -a => cast int : '- a
7 => (int) (char) a => cast int : cast char : a
6 => (int) a + b => + cast int : a b
5 => (int) a++ => cast int : ++' a
5 => (int *) a => cast int * : a
7 => (const char *const) a => cast const char *const : a
6 => (unsigned long int) a => cast unsigned long int : a
12 => (int (*)(int, T)) a => cast int * parameters 2 : a
8 => (int *[3]) a => cast int [n] * : a
9 => (int (*)[]) a => cast int * [] : a
9 => (int (*)()) a => cast int * () : a
10 => (int (*)(void)) a => cast int * parameters 0 : a
5 => (struct s) a => cast struct s : a
5 => (union u) a => cast union u : a
9 => (union { int m; }) a => cast union{} 1 : a
13 => (struct s { int m, n; } *) a => cast struct{} 1 * : a
9 => (struct { T a; }) b => cast struct{} 1 : b
5 => (enum e) a => cast enum e : a
12 => (enum { x = 1, y, }) y => cast enum{} 2 : y
4 => (T) a => cast typedef T : a
6 => (T) (a) => cast typedef T : a
6 => (V)(a) => ( V a )
3 => V * a => * V a
7 => __offsetof(struct s, m) => offsetof struct s : m
6 => __offsetof(T, m) => offsetof typedef T : m
4 => __offsetof(a) => ( __offsetof a )
9 => sizeof (enum { T }) + T => + sizeof() enum{} 1 : T";

fn is_tree(answer: &Result<Found, Refused>, taken: &str, words: &str) -> bool {
    match answer {
        Ok(found) => taken.parse::<usize>() == Ok(found.taken) && shows(found.tree.get(), words),
        Err(_) => false,
    }
}

fn parts(line: &str) -> Option<(&str, &str, &str)> {
    let (taken, rest) = line.split_once(" => ")?;
    let (text, words) = rest.split_once(" => ")?;
    Some((taken, text, words))
}

fn is_right(alloc: Global, line: &str) -> bool {
    match parts(line) {
        Some((taken, text, words)) => is_tree(&answer(alloc, text), taken, words),
        None => false,
    }
}

#[test]
fn trees(rt: HostRuntime) -> Result<(), Fail> {
    let alloc = rt.alloc();
    for line in TREES.lines() {
        assert!(rt; is_right(alloc, line), "{line}");
    }
    Ok(())
}

// An enumeration constant that an expression declares hides a type's name behind it.
#[test]
fn names_behind(rt: HostRuntime) -> Result<(), Fail> {
    let alloc = rt.alloc();
    let mut names = names_of(alloc)?;
    let name = Bytes::from_slice(alloc, b"T")?;
    assert!(rt; names.is_type(&name));
    assert!(rt; read(alloc, "sizeof (enum { T })", &mut names).is_ok());
    assert!(rt; !names.is_type(&name));
    Ok(())
}
