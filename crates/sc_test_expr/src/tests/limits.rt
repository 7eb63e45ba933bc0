// The limits of an expression: its height, the brackets that are open, arguments and parameters.

use super::reading::answer;
use super::refusals::is_refused;
use sc_base::NoMemory;
use std::alloc::Global;
use std::test::Fail;

/// How many may be repeated, the word for one more, and the texts: what stands before, what is repeated, what stands
/// between, what is repeated there, and what stands behind.
const NESTS: &[(u32, &str, [&str; 5])] = &[
    (500, "height", ["", "(", "a", ")", ""]),
    (199, "height", ["", "- ", "a", "", ""]),
    (199, "height", ["", "a = ", "a", "", ""]),
    (199, "height", ["", "a + ", "a", "", ""]),
    (198, "height", ["", "a[", "a + a", "]", ""]),
    (199, "height", ["", "(int) ", "a", "", ""]),
    (30, "arguments", ["f(", "a, ", "a", "", ")"]),
    (30, "arguments", ["(int (*)(", "int, ", "int", "", ")) a"]),
];

fn repeat(text: &mut String, count: u32, each: &str) -> Result<(), NoMemory> {
    for _ in 0..count {
        text.push_str(each)?;
    }
    Ok(())
}

fn nested(alloc: Global, count: u32, parts: &[&str; 5]) -> Result<String, NoMemory> {
    let [before, each, between, close, behind] = parts;
    let mut text = String::new(alloc);
    text.push_str(before)?;
    repeat(&mut text, count, each)?;
    text.push_str(between)?;
    repeat(&mut text, count, close)?;
    text.push_str(behind)?;
    Ok(text)
}

fn is_nest_read(alloc: Global, count: u32, parts: &[&str; 5]) -> bool {
    match nested(alloc, count, parts) {
        Ok(text) => answer(alloc, text.as_str()).is_ok(),
        Err(_) => false,
    }
}

fn is_nest_refused(alloc: Global, count: u32, parts: &[&str; 5], word: &str) -> bool {
    match nested(alloc, count, parts) {
        Ok(text) => is_refused(&answer(alloc, text.as_str()), word, 1),
        Err(_) => false,
    }
}

// Up to each limit an expression is read, and one beyond it is refused.
#[test]
fn limits(rt: HostRuntime) -> Result<(), Fail> {
    let alloc = rt.alloc();
    for (most, word, parts) in NESTS {
        assert!(rt; is_nest_read(alloc, *most, parts), "{most} {word}");
        let beyond = most.saturating_add(1);
        assert!(rt;
            is_nest_refused(alloc, beyond, parts, word),
            "{most} {word}"
        );
    }
    Ok(())
}
