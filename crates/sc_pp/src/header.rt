// The built-in headers.
ghost use Rattle.std.specs.Prelude.{◌≡◌, IfOk};
ghost use Rattle.std.specs.List.{list_any};
ghost use Rattle.sc_pp.specs.Headers as spec;

use sc_base::{Bytes, Items, NoMemory};
use std::alloc::Global;

/// A built-in header.
#[derive(Clone, Copy, Debug, PartialEq, Eq, Drop)]
pub enum Header {
    Stdio,
    Stdlib,
    Strings,
    Ctype,
    Stddef,
    Limits,
    Assert,
}

/// The declaration of `size_t`, which the first header that has it gives.
pub const SIZE: &[u8] = b"typedef unsigned int size_t;
";

pub const STDIO: &[u8] = b"#define NULL ((void *)0)
#define EOF (-1)
int putchar(int);
int puts(const char *);
int printf(const char *);
int getchar(void);
";

pub const STDLIB: &[u8] = b"#define NULL ((void *)0)
#define RAND_MAX 32767
#define EXIT_SUCCESS 0
#define EXIT_FAILURE 1
void *malloc(size_t);
void *calloc(size_t, size_t);
void *realloc(void *, size_t);
void free(void *);
int atoi(const char *);
int abs(int);
int rand(void);
void srand(unsigned int);
void exit(int);
";

pub const STRING: &[u8] = b"#define NULL ((void *)0)
void *memcpy(void *, const void *, size_t);
void *memmove(void *, const void *, size_t);
void *memset(void *, int, size_t);
int memcmp(const void *, const void *, size_t);
size_t strlen(const char *);
char *strcpy(char *, const char *);
char *strncpy(char *, const char *, size_t);
char *strcat(char *, const char *);
int strcmp(const char *, const char *);
int strncmp(const char *, const char *, size_t);
char *strchr(const char *, int);
char *strrchr(const char *, int);
";

pub const CTYPE: &[u8] = b"int isalnum(int);
int isalpha(int);
int iscntrl(int);
int isdigit(int);
int isgraph(int);
int islower(int);
int isprint(int);
int ispunct(int);
int isspace(int);
int isupper(int);
int isxdigit(int);
int tolower(int);
int toupper(int);
";

pub const STDDEF: &[u8] = b"typedef int ptrdiff_t;
#define NULL ((void *)0)
#define offsetof(t, m) __offsetof(t, m)
";

pub const LIMITS: &[u8] = b"#define CHAR_BIT 8
#define SCHAR_MIN (-128)
#define SCHAR_MAX 127
#define UCHAR_MAX 255
#define CHAR_MIN 0
#define CHAR_MAX 255
#define SHRT_MIN (-32768)
#define SHRT_MAX 32767
#define USHRT_MAX 65535
#define INT_MIN (-2147483647 - 1)
#define INT_MAX 2147483647
#define UINT_MAX 4294967295u
#define LONG_MIN (-2147483647L - 1)
#define LONG_MAX 2147483647L
#define ULONG_MAX 4294967295ul
";

pub const ASSERT: &[u8] = b"void _assert_fail(const char *, const char *, int);
#undef assert
#ifdef NDEBUG
#define assert(e) ((void)0)
#else
#define assert(e) ((e) ? (void)0 : _assert_fail(#e, __FILE__, __LINE__))
#endif
";

pub fn header_named(name: &[u8]) -> Option<Header>
    ensures { result ≡ spec.header_named name.now }
{
    if name == b"stdio.h".as_slice() {
        Some(Header::Stdio)
    } else if name == b"stdlib.h".as_slice() {
        Some(Header::Stdlib)
    } else if name == b"string.h".as_slice() {
        Some(Header::Strings)
    } else if name == b"ctype.h".as_slice() {
        Some(Header::Ctype)
    } else if name == b"stddef.h".as_slice() {
        Some(Header::Stddef)
    } else if name == b"limits.h".as_slice() {
        Some(Header::Limits)
    } else if name == b"assert.h".as_slice() {
        Some(Header::Assert)
    } else {
        None
    }
}

#[tactic(auto, unfolding(crate::specs::Headers::header_text))]
fn header_text(header: Header) -> &'static [u8]
    ensures { result.now ≡ spec.header_text header }
{
    match header {
        Header::Stdio => STDIO,
        Header::Stdlib => STDLIB,
        Header::Strings => STRING,
        Header::Ctype => CTYPE,
        Header::Stddef => STDDEF,
        Header::Limits => LIMITS,
        Header::Assert => ASSERT,
    }
}

#[tactic(auto, unfolding(crate::specs::Headers::size_text))]
fn size_text() -> &'static [u8]
    ensures { result.now ≡ spec.size_text }
{
    SIZE
}

fn is_assert(header: Header) -> bool
    ensures { result ≡ spec.is_assert header }
{
    match header {
        Header::Assert => true,
        _ => false,
    }
}

fn gives_size(header: Header) -> bool
    ensures { result ≡ spec.gives_size header }
{
    match header {
        Header::Stdio => true,
        Header::Stdlib => true,
        Header::Strings => true,
        Header::Stddef => true,
        _ => false,
    }
}

fn was_seen(seen: &[Header], header: Header) -> bool
    ensures { result ≡ list_any (spec.same_header header) seen.now }
{
    let mut left = seen;
    'seen: while let Some((other, rest)) = left.split_first() {
        if header == *other {
            return true;
        }
        left = rest;
    }
    false
}

fn size_was_given(seen: &[Header]) -> bool
    ensures { result ≡ list_any spec.gives_size seen.now }
{
    let mut left = seen;
    'seen: while let Some((other, rest)) = left.split_first() {
        if gives_size(*other) {
            return true;
        }
        left = rest;
    }
    false
}

/// Whether a header adds anything where these were included before.
pub fn is_fresh(seen: &[Header], header: Header) -> bool
    ensures { result ≡ spec.is_fresh seen.now header }
{
    is_assert(header) || !was_seen(seen, header)
}

/// What a header adds where these were included before.
pub fn added_text(alloc: Global, seen: &[Header], header: Header) -> Result<Vec<u8>, NoMemory>
    ensures { IfOk result (λ text. text.items ≡ spec.added_text seen.now header) }
{
    let mut text = Vec::new(alloc);
    if gives_size(header) && !size_was_given(seen) {
        text.extend_from_slice(size_text())?;
    }
    text.extend_from_slice(header_text(header))?;
    Ok(text)
}
