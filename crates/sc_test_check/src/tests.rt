// The tables of texts and answers.
use crate::answers::{checked, is_answer, with_lines};
use crate::constants::CONSTANTS;
use crate::declarations::DECLARATIONS;
use crate::initials::INITIALS;
use crate::jumps::JUMPS;
use crate::names::NAMES;
use crate::operands::OPERANDS;
use crate::operators::OPERATORS;
use crate::sizes::SIZES;
use crate::statements::STATEMENTS;
use crate::unions::UNIONS;
use sc_base::NoMemory;
use std::alloc::Global;
use std::test::Fail;

// What is declared where the expressions stand.
const AROUND: &str = "\
    struct s { int m; char n; }; struct k { const int m; int n; }; struct d { struct k in; int o; }; struct t; typedef \
    struct s S; enum e { E0, E5 = 5 }; int i, j; unsigned u; long l; unsigned long ul; char c; short h; enum e en; const \
    int ci; int *p, **pp, *const cp; const int *pc; unsigned *pu; long *pl; char *q; const char *qc; unsigned char *uq; \
    void *v; const void *vc; const int **ppc; int *const *pcp; int a[3], aa[2][3], (*pa)[3], (*po)[]; const int ca[3]; \
    extern int un[]; struct s x, *y, as[2]; const struct s cx, *cy; struct k kx; struct d dx; struct t *z; int f(int); \
    void g(void); struct s *fs(void); int (*fp)(int); void (*gp)(void); int printf(const char *); void run(int b) { \
    register int r; register struct s rs; register int ra[2];  ";

fn is_right_unit(alloc: Global, line: &str) -> bool {
    match line.split_once(" => ") {
        Some((text, wanted)) => match with_lines(alloc, text) {
            Ok(unit) => is_answer(alloc, &checked(alloc, unit.as_str()), wanted),
            Err(_) => false,
        },
        None => false,
    }
}

fn around(alloc: Global, text: &str) -> Result<String, NoMemory> {
    let expression = with_lines(alloc, text)?;
    let mut unit = String::from_str(alloc, AROUND)?;
    unit.push_str(expression.as_str())?;
    unit.push_str("; }")?;
    Ok(unit)
}

fn is_right_expression(alloc: Global, line: &str) -> bool {
    match line.split_once(" => ") {
        Some((text, wanted)) => match around(alloc, text) {
            Ok(unit) => is_answer(alloc, &checked(alloc, unit.as_str()), wanted),
            Err(_) => false,
        },
        None => false,
    }
}

#[test]
fn operands(rt: HostRuntime) -> Result<(), Fail> {
    let alloc = rt.alloc();
    for line in OPERANDS.lines() {
        assert!(rt; is_right_expression(alloc, line), "{line}");
    }
    Ok(())
}

#[test]
fn operators(rt: HostRuntime) -> Result<(), Fail> {
    let alloc = rt.alloc();
    for line in OPERATORS.lines() {
        assert!(rt; is_right_expression(alloc, line), "{line}");
    }
    Ok(())
}

#[test]
fn constants(rt: HostRuntime) -> Result<(), Fail> {
    let alloc = rt.alloc();
    for line in CONSTANTS.lines() {
        assert!(rt; is_right_unit(alloc, line), "{line}");
    }
    Ok(())
}

#[test]
fn initials(rt: HostRuntime) -> Result<(), Fail> {
    let alloc = rt.alloc();
    for line in INITIALS.lines() {
        assert!(rt; is_right_unit(alloc, line), "{line}");
    }
    Ok(())
}

#[test]
fn declarations(rt: HostRuntime) -> Result<(), Fail> {
    let alloc = rt.alloc();
    for line in DECLARATIONS.lines() {
        assert!(rt; is_right_unit(alloc, line), "{line}");
    }
    Ok(())
}

#[test]
fn names(rt: HostRuntime) -> Result<(), Fail> {
    let alloc = rt.alloc();
    for line in NAMES.lines() {
        assert!(rt; is_right_unit(alloc, line), "{line}");
    }
    Ok(())
}

#[test]
fn statements(rt: HostRuntime) -> Result<(), Fail> {
    let alloc = rt.alloc();
    for line in STATEMENTS.lines() {
        assert!(rt; is_right_unit(alloc, line), "{line}");
    }
    Ok(())
}

#[test]
fn jumps(rt: HostRuntime) -> Result<(), Fail> {
    let alloc = rt.alloc();
    for line in JUMPS.lines() {
        assert!(rt; is_right_unit(alloc, line), "{line}");
    }
    Ok(())
}

#[test]
fn unions(rt: HostRuntime) -> Result<(), Fail> {
    let alloc = rt.alloc();
    for line in UNIONS.lines() {
        assert!(rt; is_right_unit(alloc, line), "{line}");
    }
    Ok(())
}

#[test]
fn sizes(rt: HostRuntime) -> Result<(), Fail> {
    let alloc = rt.alloc();
    for line in SIZES.lines() {
        assert!(rt; is_right_unit(alloc, line), "{line}");
    }
    Ok(())
}
