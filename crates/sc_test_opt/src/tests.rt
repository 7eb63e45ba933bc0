// What folding leaves of short functions, and what the second compiler gives.
use crate::answers::{checked, fast_file, folded_file, plain_file};
use sc_base::Bytes;
use sc_opt::generate_fast;
use std::alloc::Global;
use std::test::Fail;

/// Two modules: the first one folded has the object of the second. Each has an expression that keeps four values, so that their
/// frames are of one size.
const FOLDED: &str =
    "int f(int i) { i = i - (i - (i - (i - i))); return 2 * 3; } => int f(int i) { i = i - (i - (i - (i - i))); return 6; }
int f(int i) { i = i - (i - (i - (i - i))); return (char)300; } => int f(int i) { i = i - (i - (i - (i - i))); return 44; }
int f(int i) { i = i - (i - (i - (i - i))); return i + (7 - 5) * 3; } => int f(int i) { i = i - (i - (i - (i - i))); return i + 6; }
int f(int i) { i = i - (i - (i - (i - i))); return !0 + ~0; } => int f(int i) { i = i - (i - (i - (i - i))); return 0; }
int f(int i) { int k = 3 << 4; i = i - (i - (i - (i - i))); return k; } => int f(int i) { int k = 48; i = i - (i - (i - (i - i))); return k; }
int f(int i) { i = i - (i - (i - (i - i))); while (i < 2 * 8) i++; return i; } => int f(int i) { i = i - (i - (i - (i - i))); while (i < 16) i++; return i; }
int f(int i) { i = i - (i - (i - (i - i))); return 1 / 0; } => int f(int i) { i = i - (i - (i - (i - i))); return 1 / 0; }
int f(int i) { i = i - (i - (i - (i - i))); return 2147483647 + 1; } => int f(int i) { i = i - (i - (i - (i - i))); return 2147483647 + 1; }
int f(int i) { i = i - (i - (i - (i - i))); return 1 << 32; } => int f(int i) { i = i - (i - (i - (i - i))); return 1 << 32; }";

/// Modules whose objects by the second compiler have a shorter file than those by the plain one.
const SHORTER: &str =
    "int main(void) { int i, s; s = 0; for (i = 0; i < 1000; i++) s = s + 2 * 3; return s % 256; }
int sum(int *v, int n) { int i, s; s = 0; for (i = 0; i < n; i++) s += v[i] * n + v[n - i]; return s + n; }";

fn is_same(a: Option<Bytes>, b: Option<Bytes>) -> bool {
    match (a, b) {
        (Some(a), Some(b)) => a.as_slice() == b.as_slice(),
        (Some(_), None) => false,
        (None, _) => false,
    }
}

fn is_folded(alloc: Global, line: &str) -> bool {
    match line.split_once(" => ") {
        Some((text, wanted)) => match (checked(alloc, text), checked(alloc, wanted)) {
            (Ok(a), Ok(b)) => is_same(folded_file(alloc, &a), plain_file(alloc, &b)),
            (Ok(_), Err(_)) => false,
            (Err(_), _) => false,
        },
        None => false,
    }
}

fn is_below(a: Option<Bytes>, b: Option<Bytes>) -> bool {
    match (a, b) {
        (Some(a), Some(b)) => a.as_slice().len() < b.as_slice().len(),
        (Some(_), None) => false,
        (None, _) => false,
    }
}

fn is_shorter(alloc: Global, text: &str) -> bool {
    match checked(alloc, text) {
        Ok(core) => {
            is_below(fast_file(alloc, &core), plain_file(alloc, &core))
                && generate_fast(alloc, &core).is_ok()
        }
        Err(_) => false,
    }
}

#[test]
fn constants_are_folded(rt: HostRuntime) -> Result<(), Fail> {
    let alloc = rt.alloc();
    for line in FOLDED.lines() {
        assert!(rt; is_folded(alloc, line), "{line}");
    }
    Ok(())
}

#[test]
fn fast_texts_are_shorter(rt: HostRuntime) -> Result<(), Fail> {
    let alloc = rt.alloc();
    for text in SHORTER.lines() {
        assert!(rt; is_shorter(alloc, text), "{text}");
    }
    Ok(())
}
