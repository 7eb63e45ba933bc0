// A call of a function of the library, by its number (ANSI 4.2, 4.3, 4.9 to 4.11).
ghost use Rattle.std.specs.Prelude.{◌≡◌, []};
ghost use Rattle.sc_meaning.specs.Expressions as answers;
ghost use Rattle.sc_meaning.specs.Functions as spec;
ghost use Rattle.sc_meaning.specs.Library as library;
ghost use Rattle.sc_meaning.specs.Outcomes as outcome;
ghost use Rattle.sc_meaning.specs.World as worlds;
ghost use Rattle.sc_meaning.specs.Versions.{History};
ghost use Rattle.sc_interp_access.specs.Gives.{Gives};
ghost use Rattle.sc_lib.specs.Quiet.{IsQuiet};

use crate::characters::on_character;
use crate::ends::{assert_fail, exit};
use crate::numbers::{abs, atoi};
use crate::printf::printf;
use sc_base::Key;
use sc_interp_access::Stop;
use sc_interp_world::World;
use sc_lib_bytes::{
    bits_at, bytes_compared, calloc, free, malloc, memcpy, memmove, memset, realloc, shown, strcat,
    strchr, strcmp, strcpy, strlen, strncpy, strrchr, text_at, value_at,
};
use sc_meaning::LibFun;
use sc_meaning_values::{Answer, Value};

/// `putchar`.
pub fn putchar(c: u32, world: &mut World) -> Result<Answer, Stop>
    ensures { Gives (spec.putchar [] c world.old) result world.new }
{
    let byte = (c % 256) as u8;
    shown(&[byte], world)?;
    Ok(Answer::plain(Value::number(u32::from(byte))))
}

/// `puts`.
///
/// # Errors
///
/// The rule that a load breaks.
pub fn puts(p: &Value, world: &mut World) -> Result<Answer, Stop>
    ensures { Gives (spec.puts [] p.now world.old) result world.new }
{
    let mut text = text_at(p, world)?;
    text.push(10)?;
    shown(text.as_slice(), world)?;
    Ok(Answer::plain(Value::null()))
}

/// `getchar`.
pub fn getchar(world: &mut World) -> Result<Answer, Stop>
    ensures { Gives (spec.got world.old.input world.old) result world.new }
{
    match world.next_input() {
        None => Ok(Answer::plain(Value::number(4_294_967_295))),
        Some(b) => {
            world.read()?;
            world.tick()?;
            Ok(Answer::plain(Value::number(u32::from(b))))
        }
    }
}

// The number from which the next random number comes.
fn next_seed(s: u32) -> u32
    ensures { result ≡ spec.next_seed s }
{
    let next = (u64::from(s) * 1_103_515_245 + 12_345) % 4_294_967_296;
    next as u32
}

/// `rand`.
pub fn rand(world: &mut World) -> Result<Answer, Stop>
    ensures { Gives (spec.rand world.old) result world.new }
{
    let s = next_seed(world.seed());
    world.reseed(s)?;
    Ok(Answer::plain(Value::number(s / 65536 % 32768)))
}

fn srand(n: u32, world: &mut World) -> Result<Answer, Stop>
    ensures { Gives (outcome.Done answers.Nothing (worlds.pass (worlds.Seed n) world.old)) result world.new }
{
    world.reseed(n)?;
    Ok(Answer::nothing())
}

// The call of a function of the library, in a run that has no further version; `p` and `q` are its first two arguments.
fn called(
    f: LibFun,
    key: &Key,
    vs: &[Value],
    p: &Value,
    q: &Value,
    world: &mut World,
) -> Result<Answer, Stop>
    requires first { p.now ≡ library.value_at vs.now 0 }
    requires second { q.now ≡ library.value_at vs.now 1 }
    ensures { Gives (spec.library_call [] f key.now vs.now world.old) result world.new }
{
    match f {
        LibFun::Putchar => putchar(bits_at(vs, 0), world),
        LibFun::Puts => puts(p, world),
        LibFun::Printf => printf(key, vs, world),
        LibFun::Getchar => getchar(world),
        LibFun::Malloc => malloc(bits_at(vs, 0), world),
        LibFun::Calloc => calloc(bits_at(vs, 0), bits_at(vs, 1), world),
        LibFun::Realloc => realloc(p, bits_at(vs, 1), world),
        LibFun::Free => free(p, world),
        LibFun::Memcpy => memcpy(p, q, bits_at(vs, 2), world),
        LibFun::Memmove => memmove(p, q, bits_at(vs, 2), world),
        LibFun::Memset => memset(p, bits_at(vs, 1), bits_at(vs, 2), world),
        LibFun::Memcmp => bytes_compared(bits_at(vs, 2), false, p, q, world),
        LibFun::Strlen => strlen(p, world),
        LibFun::Strcpy => strcpy(p, q, world),
        LibFun::Strncpy => strncpy(p, q, bits_at(vs, 2), world),
        LibFun::Strcat => strcat(p, q, world),
        LibFun::Strcmp => strcmp(p, q, world),
        LibFun::Strncmp => bytes_compared(bits_at(vs, 2), true, p, q, world),
        LibFun::Strchr => strchr(p, bits_at(vs, 1), world),
        LibFun::Strrchr => strrchr(p, bits_at(vs, 1), world),
        LibFun::Atoi => atoi(key, vs, p, world),
        LibFun::Abs => abs(key, vs, bits_at(vs, 0), world),
        LibFun::Rand => rand(world),
        LibFun::Srand => srand(bits_at(vs, 0), world),
        LibFun::Exit => exit(bits_at(vs, 0), world),
        LibFun::AssertFail => assert_fail(p, q, bits_at(vs, 2), world),
        LibFun::Isalnum
        | LibFun::Isalpha
        | LibFun::Iscntrl
        | LibFun::Isdigit
        | LibFun::Isgraph
        | LibFun::Islower
        | LibFun::Isprint
        | LibFun::Ispunct
        | LibFun::Isspace
        | LibFun::Isupper
        | LibFun::Isxdigit
        | LibFun::Tolower
        | LibFun::Toupper => on_character(f, key, vs, world),
    }
}

/// The call of a function of the library with its arguments, in a run in which nothing changes behind an event.
///
/// # Errors
///
/// The rule that an access breaks, `U16` for an argument outside its range, `U14`, `U18`, `BirthLimit`, or `Exit`.
#[tactic(auto, using(crate::proofs::Histories::quiet_library))]
pub fn library_call(f: LibFun, key: &Key, vs: &[Value], world: &mut World) -> Result<Answer, Stop>
    ensures { (h : History) → IsQuiet h → Gives (spec.library_call h f key.now vs.now world.old) result world.new }
{
    let p = value_at(vs, 0, world)?;
    let q = value_at(vs, 1, world)?;
    called(f, key, vs, &p, &q, world)
}
