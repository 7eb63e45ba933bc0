// Functions on characters, and numbers (ANSI 4.3, 4.10.1, 4.10.2, 4.10.6).
ghost use Rattle.std.specs.Prelude.{◌≡◌, ◌<◌};
ghost use Rattle.sc_fmt.specs.Classes as classes;
ghost use Rattle.sc_fmt.specs.Format as format;
ghost use Rattle.sc_meaning.specs.Functions as spec;
ghost use Rattle.sc_meaning.specs.Library as library;
ghost use Rattle.sc_ops.specs.Operators as operators;
ghost use Rattle.sc_interp_access.specs.Gives.{Gives};
ghost use Rattle.sc_lib.specs.Characters.{value_of};

use sc_base::{Key, Shared};
use sc_interp_access::Stop;
use sc_interp_world::World;
use sc_lib_bytes::{argument_breach, bits_at};
use sc_meaning::LibFun;
use sc_meaning_values::{Answer, Value};

/// Whether a character is a digit.
pub fn is_digit(c: u32) -> bool
    ensures { result ≡ format.is_digit c }
{
    48 <= c && c <= 57
}

fn is_upper(c: u32) -> bool
    ensures { result ≡ classes.is_upper c }
{
    65 <= c && c <= 90
}

fn is_lower(c: u32) -> bool
    ensures { result ≡ classes.is_lower c }
{
    97 <= c && c <= 122
}

fn is_alpha(c: u32) -> bool
    ensures { result ≡ classes.is_alpha c }
{
    is_upper(c) || is_lower(c)
}

fn is_alnum(c: u32) -> bool
    ensures { result ≡ classes.is_alnum c }
{
    is_alpha(c) || is_digit(c)
}

fn is_xdigit(c: u32) -> bool
    ensures { result ≡ classes.is_xdigit c }
{
    is_digit(c) || 65 <= c && c <= 70 || 97 <= c && c <= 102
}

/// Whether a character is white space.
pub fn is_space(c: u32) -> bool
    ensures { result ≡ classes.is_space c }
{
    c == 32 || c == 12 || c == 10 || c == 13 || c == 9 || c == 11
}

fn is_print(c: u32) -> bool
    ensures { result ≡ classes.is_print c }
{
    32 <= c && c <= 126
}

fn is_graph(c: u32) -> bool
    ensures { result ≡ classes.is_graph c }
{
    is_print(c) && c != 32
}

fn is_punct(c: u32) -> bool
    ensures { result ≡ classes.is_punct c }
{
    is_print(c) && !(c == 32 || is_alnum(c))
}

fn is_cntrl(c: u32) -> bool
    ensures { result ≡ classes.is_cntrl c }
{
    c <= 31 || c == 127
}

fn lower(c: u32) -> u32
    ensures { result ≡ spec.lower c }
{
    if is_upper(c) { c + 32 } else { c }
}

fn upper(c: u32) -> u32
    ensures { result ≡ spec.upper c }
{
    if is_lower(c) { c - 32 } else { c }
}

fn is_character(c: u32) -> bool
    ensures { result ≡ spec.is_character c }
{
    c < 256 || c == 4_294_967_295
}

/// `U16` of an argument, counted from 1.
///
/// # Errors
///
/// Always.
pub fn out_of_range(key: &Key, vs: &[Value], i: u32, world: &World) -> Result<Answer, Stop>
    requires { 0 < i }
    ensures { Gives (library.out_of_range key.now vs.now i world.now) result world.now }
{
    let told = argument_breach(key, vs, i, world)?;
    Err(Stop::Undefined(Shared::new(world.alloc(), told)?))
}

// 1 for a character in a class, 0 for one that is not.
fn classed(is_in: bool) -> u32
    ensures { result ≡ operators.truth_of is_in }
{
    if is_in { 1 } else { 0 }
}

// The value of a function on characters, 0 for every other function.
fn character_value(f: LibFun, c: u32) -> u32
    ensures { result ≡ value_of f c }
{
    match f {
        LibFun::Isalnum => classed(is_alnum(c)),
        LibFun::Isalpha => classed(is_alpha(c)),
        LibFun::Iscntrl => classed(is_cntrl(c)),
        LibFun::Isdigit => classed(is_digit(c)),
        LibFun::Isgraph => classed(is_graph(c)),
        LibFun::Islower => classed(is_lower(c)),
        LibFun::Isprint => classed(is_print(c)),
        LibFun::Ispunct => classed(is_punct(c)),
        LibFun::Isspace => classed(is_space(c)),
        LibFun::Isupper => classed(is_upper(c)),
        LibFun::Isxdigit => classed(is_xdigit(c)),
        LibFun::Tolower => lower(c),
        LibFun::Toupper => upper(c),
        _ => 0,
    }
}

/// What a function on characters gives.
///
/// # Errors
///
/// `U16` where the argument is no byte and not the end of the input.
pub fn on_character(f: LibFun, key: &Key, vs: &[Value], world: &World) -> Result<Answer, Stop>
    ensures { Gives (spec.on_character key.now vs.now (value_of f) world.now) result world.now }
{
    let c = bits_at(vs, 0);
    if is_character(c) {
        Ok(Answer::plain(Value::number(character_value(f, c))))
    } else {
        out_of_range(key, vs, 1, world)
    }
}
