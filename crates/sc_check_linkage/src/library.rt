// The names of the library's functions (ANSI 4).
ghost use Rattle.std.specs.Prelude.{◌≡◌, map};
ghost use Rattle.sc_check_linkage.specs.Library as spec;

use sc_base::Name;

const NAMES: [&[u8]; 39] = [
    b"putchar",
    b"puts",
    b"printf",
    b"getchar",
    b"malloc",
    b"calloc",
    b"realloc",
    b"free",
    b"memcpy",
    b"memmove",
    b"memset",
    b"memcmp",
    b"strlen",
    b"strcpy",
    b"strncpy",
    b"strcat",
    b"strcmp",
    b"strncmp",
    b"strchr",
    b"strrchr",
    b"atoi",
    b"abs",
    b"rand",
    b"srand",
    b"exit",
    b"isalnum",
    b"isalpha",
    b"iscntrl",
    b"isdigit",
    b"isgraph",
    b"islower",
    b"isprint",
    b"ispunct",
    b"isspace",
    b"isupper",
    b"isxdigit",
    b"tolower",
    b"toupper",
    b"_assert_fail",
];

fn is_among(names: &[&[u8]], name: &[u8]) -> bool
    ensures { result ≡ spec.is_among (map (λ n. n.now) names.now) name.now }
{
    for other in names {
        if **other == *name {
            return true;
        }
    }
    false
}

/// Whether the name is that of a library function.
pub fn is_library_name(name: &Name) -> bool
    ensures { result ≡ spec.is_library_name name.now }
{
    is_among(&NAMES, name.as_slice())
}
