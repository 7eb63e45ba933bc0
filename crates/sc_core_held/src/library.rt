// The library's functions by their names and types (ANSI 4.2, 4.3, 4.9 to 4.11).
ghost use Rattle.std.specs.Prelude.{◌≡◌, map};
ghost use Rattle.sc_types.specs.declared.ctype.CType.{out-CType};
ghost use Rattle.sc_meaning.specs.Names as names;
ghost use Rattle.sc_meaning.specs.Signatures as spec;
ghost use Rattle.sc_types.specs.Compatibility as compatibility;
ghost use Rattle.sc_core_held.specs.Forms.{form_of};

use sc_base::{Int, Name};
use sc_meaning::LibFun;
use sc_types::{CType, Signature, rank};

/// The names of the library, in the order of their numbers.
pub const NAMES: [(&[u8], LibFun); 39] = [
    (b"putchar", LibFun::Putchar),
    (b"puts", LibFun::Puts),
    (b"printf", LibFun::Printf),
    (b"getchar", LibFun::Getchar),
    (b"malloc", LibFun::Malloc),
    (b"calloc", LibFun::Calloc),
    (b"realloc", LibFun::Realloc),
    (b"free", LibFun::Free),
    (b"memcpy", LibFun::Memcpy),
    (b"memmove", LibFun::Memmove),
    (b"memset", LibFun::Memset),
    (b"memcmp", LibFun::Memcmp),
    (b"strlen", LibFun::Strlen),
    (b"strcpy", LibFun::Strcpy),
    (b"strncpy", LibFun::Strncpy),
    (b"strcat", LibFun::Strcat),
    (b"strcmp", LibFun::Strcmp),
    (b"strncmp", LibFun::Strncmp),
    (b"strchr", LibFun::Strchr),
    (b"strrchr", LibFun::Strrchr),
    (b"atoi", LibFun::Atoi),
    (b"abs", LibFun::Abs),
    (b"rand", LibFun::Rand),
    (b"srand", LibFun::Srand),
    (b"exit", LibFun::Exit),
    (b"isalnum", LibFun::Isalnum),
    (b"isalpha", LibFun::Isalpha),
    (b"iscntrl", LibFun::Iscntrl),
    (b"isdigit", LibFun::Isdigit),
    (b"isgraph", LibFun::Isgraph),
    (b"islower", LibFun::Islower),
    (b"isprint", LibFun::Isprint),
    (b"ispunct", LibFun::Ispunct),
    (b"isspace", LibFun::Isspace),
    (b"isupper", LibFun::Isupper),
    (b"isxdigit", LibFun::Isxdigit),
    (b"tolower", LibFun::Tolower),
    (b"toupper", LibFun::Toupper),
    (b"_assert_fail", LibFun::AssertFail),
];

fn named_fun(funs: &[(&[u8], LibFun)], name: &[u8]) -> Option<LibFun>
    ensures { result ≡ names.named_fun (map (λ f. (f.0.now, f.1)) funs.now) name.now }
{
    for f in funs {
        if *f.0 == *name {
            return Some(f.1);
        }
    }
    None
}

/// The function of the library that has this name.
pub fn library_fun(name: &Name) -> Option<LibFun>
    ensures { result ≡ names.library_fun name.now }
{
    named_fun(&NAMES, name.as_slice())
}

/// The form of a type that a library function has: `void`, an integer type, `void *`, `char *`; the truth value says
/// whether what is pointed to is `const`.
#[derive(Clone, Copy)]
pub enum TypeForm {
    ToNone,
    ToInt(Int),
    ToVoid(bool),
    ToText(bool),
}

const INT: TypeForm = TypeForm::ToInt(Int::Int);

const SIZE: TypeForm = TypeForm::ToInt(Int::UInt);

const TEXT: TypeForm = TypeForm::ToText(false);

const CONST_TEXT: TypeForm = TypeForm::ToText(true);

const BYTES: TypeForm = TypeForm::ToVoid(false);

const CONST_BYTES: TypeForm = TypeForm::ToVoid(true);

fn same_bool(a: bool, b: bool) -> bool
    ensures { result ≡ compatibility.same_bool a b }
{
    if a { b } else { !b }
}

fn same_const(own: bool, a: bool, b: bool) -> bool
    ensures { result ≡ compatibility.same_const own a b }
{
    if own { same_bool(a, b) } else { true }
}

fn is_void_target(c: bool, t: &CType) -> bool
    ensures { result ≡ spec.is_void_target c (out-CType t.now) }
{
    match t {
        CType::Void(d) => same_bool(c, *d),
        CType::Int(_, _)
        | CType::Pointer(_, _)
        | CType::Array(_, _)
        | CType::Struct(_, _)
        | CType::Function(_) => false,
    }
}

fn is_char_target(c: bool, t: &CType) -> bool
    ensures { result ≡ spec.is_char_target c (out-CType t.now) }
{
    match t {
        CType::Int(i, d) => rank(*i) == rank(Int::Char) && same_bool(c, *d),
        CType::Void(_)
        | CType::Pointer(_, _)
        | CType::Array(_, _)
        | CType::Struct(_, _)
        | CType::Function(_) => false,
    }
}

// Whether a type has a form, its own qualifier left aside where it is a parameter's.
fn has_form(own: bool, form: TypeForm, t: &CType) -> bool
    ensures { result ≡ spec.has_shape own (form_of form) (out-CType t.now) }
{
    match (form, t) {
        (TypeForm::ToNone, CType::Void(d)) => same_const(own, false, *d),
        (TypeForm::ToInt(i), CType::Int(j, d)) => {
            rank(i) == rank(*j) && same_const(own, false, *d)
        }
        (TypeForm::ToVoid(c), CType::Pointer(t, d)) => {
            same_const(own, false, *d) && is_void_target(c, t.get())
        }
        (TypeForm::ToText(c), CType::Pointer(t, d)) => {
            same_const(own, false, *d) && is_char_target(c, t.get())
        }
        _ => false,
    }
}

fn have_forms(forms: &[TypeForm], types: &[CType]) -> bool
    ensures { result ≡ spec.have_shapes (map form_of forms.now) types.now }
{
    match forms {
        [] => types.is_empty(),
        [f, fs @ ..] => match types {
            [] => false,
            [t, ts @ ..] => has_form(false, *f, t) && have_forms(fs, ts),
        },
    }
}

// The result and the parameters of the functions on bytes and on the heap.
fn forms_of(f: LibFun) -> &'static [TypeForm]
    ensures { map form_of result.now ≡ spec.shapes_of f }
{
    match f {
        LibFun::Puts | LibFun::Printf | LibFun::Atoi => &[INT, CONST_TEXT],
        LibFun::Getchar | LibFun::Rand => &[INT],
        LibFun::Malloc => &[BYTES, SIZE],
        LibFun::Calloc => &[BYTES, SIZE, SIZE],
        LibFun::Realloc => &[BYTES, BYTES, SIZE],
        LibFun::Free => &[TypeForm::ToNone, BYTES],
        LibFun::Memcpy | LibFun::Memmove => &[BYTES, BYTES, CONST_BYTES, SIZE],
        LibFun::Memset => &[BYTES, BYTES, INT, SIZE],
        LibFun::Memcmp => &[INT, CONST_BYTES, CONST_BYTES, SIZE],
        LibFun::Strlen => &[SIZE, CONST_TEXT],
        LibFun::Strcpy | LibFun::Strcat => &[TEXT, TEXT, CONST_TEXT],
        LibFun::Strncpy => &[TEXT, TEXT, CONST_TEXT, SIZE],
        LibFun::Strcmp => &[INT, CONST_TEXT, CONST_TEXT],
        LibFun::Strncmp => &[INT, CONST_TEXT, CONST_TEXT, SIZE],
        LibFun::Strchr | LibFun::Strrchr => &[TEXT, CONST_TEXT, INT],
        LibFun::Srand => &[TypeForm::ToNone, SIZE],
        LibFun::Exit => &[TypeForm::ToNone, INT],
        LibFun::AssertFail => &[TypeForm::ToNone, CONST_TEXT, CONST_TEXT, INT],
        LibFun::Putchar
        | LibFun::Abs
        | LibFun::Isalnum
        | LibFun::Isalpha
        | LibFun::Iscntrl
        | LibFun::Isdigit
        | LibFun::Isgraph
        | LibFun::Islower
        | LibFun::Isprint
        | LibFun::Ispunct
        | LibFun::Isspace
        | LibFun::Isupper
        | LibFun::Isxdigit
        | LibFun::Tolower
        | LibFun::Toupper => &[INT, INT],
    }
}

// `printf` alone takes further arguments.
fn is_variadic(f: LibFun) -> bool
    ensures { result ≡ spec.is_variadic f }
{
    match f {
        LibFun::Printf => true,
        _ => false,
    }
}

fn fits(forms: &[TypeForm], s: &Signature) -> bool
    ensures { result ≡ spec.fits_shapes (map form_of forms.now) s.now }
{
    match forms {
        [] => false,
        [r, ps @ ..] => has_form(true, *r, &s.result) && have_forms(ps, s.params.as_slice()),
    }
}

/// Whether the type by which a library function is called is compatible with its own (3.5.4.3).
pub fn takes(f: LibFun, s: &Signature) -> bool
    ensures { result ≡ spec.takes f s.now }
{
    same_bool(is_variadic(f), s.variadic) && fits(forms_of(f), s)
}
