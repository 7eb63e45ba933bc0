// Conditions and their values.
use sc_lex::lex;
use sc_pp_condition::{ConditionFault, condition};
use std::alloc::Global;
use std::test::Fail;

/// A condition, and whether it holds (1) or not (0), is malformed (X), or too high (H).
const CASES: &[(&[u8], u8)] = &[
    (b"1", b'1'),
    (b"0", b'0'),
    (b"1 + 2 * 3 == 7", b'1'),
    (b"-1 < 0", b'1'),
    (b"-1 < 0u", b'0'),
    (b"2147483647 + 1 < 0", b'1'),
    (b"4294967295 == -1", b'1'),
    (b"1 << 33 == 2", b'1'),
    (b"-8 >> 1 == -4", b'1'),
    (b"0xFFFFFFF8 >> 1 == 0x7FFFFFFC", b'1'),
    (b"-7 / 2 == -3", b'1'),
    (b"-7 % 2 == -1", b'1'),
    (b"1 / 0", b'X'),
    (b"1 % 0", b'X'),
    (b"0 && 1 / 0", b'0'),
    (b"1 || 1 / 0", b'1'),
    (b"1 && 1 / 0", b'X'),
    (b"1 ? 2 : 1 / 0", b'1'),
    (b"0 ? 1 / 0 : 0", b'0'),
    (b"(1 ? -1 : 0u) > 0", b'1'),
    (b"'a' == 97", b'1'),
    (b"'\\n' == 10 && '\\x41' == 65 && '\\101' == 'A'", b'1'),
    (b"'ab'", b'X'),
    (b"'\\400'", b'X'),
    (b"'\\q'", b'X'),
    (b"0x1F == 31 && 017 == 15 && 10UL", b'1'),
    (b"08", b'X'),
    (b"0x", b'X'),
    (b"1.5", b'X'),
    (b"1uu", b'X'),
    (b"4294967296", b'X'),
    (b"\"a\"", b'X'),
    (b"a == 0", b'1'),
    (b"1 = 1", b'X'),
    (b"1, 1", b'X'),
    (b"", b'X'),
    (b"1 +", b'X'),
    (b"(1", b'X'),
    (b"1)", b'X'),
    (b"1 ? 2", b'X'),
    (b"1 2", b'X'),
    (b"1 ? 0 : 1 ? 2 : 0", b'0'),
    (b"!0 && ~0 == -1 && + 1", b'1'),
    (b"2 - 1 - 1", b'0'),
    (b"1 == 1 == 1", b'1'),
    (b"5 & 3 | 8 ^ 8", b'1'),
    (b"2 + 3 << 1 == 10", b'1'),
    (b"-2147483647 - 1 == (-2147483647 - 1) / -1", b'1'),
    (b"(-2147483647 - 1) % -1", b'0'),
    (b"-1 * -1 == 1", b'1'),
    (b"1 ! 2", b'X'),
    (
        b"!!!!!!!!!!!!!!!!!!!!!!!!!!!!!!!!!!!!!!!!!!!!!!!!!!!!!!!!!!!!!!!!!!!!!!!!!!!!!!!!!!!!!!!!!!!!!!!!!!!!!!!!!!!!!!!!!!!!!!!!!!!!!!!!!!!!!!!!!!!!!!!!!!!!!!!!!!!!!!!!!!!!!!!!!!!!!!!!!!!!!!!!!!!!!!!!!!!!!!!1",
        b'0',
    ),
    (
        b"!!!!!!!!!!!!!!!!!!!!!!!!!!!!!!!!!!!!!!!!!!!!!!!!!!!!!!!!!!!!!!!!!!!!!!!!!!!!!!!!!!!!!!!!!!!!!!!!!!!!!!!!!!!!!!!!!!!!!!!!!!!!!!!!!!!!!!!!!!!!!!!!!!!!!!!!!!!!!!!!!!!!!!!!!!!!!!!!!!!!!!!!!!!!!!!!!!!!!!!!1",
        b'H',
    ),
];

fn answer(alloc: Global, text: &[u8]) -> u8 {
    if text.len() > 1000 {
        return b'?';
    }
    match lex(alloc, text, 0) {
        Ok(tokens) => match condition(alloc, tokens.as_slice()) {
            Ok(true) => b'1',
            Ok(false) => b'0',
            Err(ConditionFault::Malformed) => b'X',
            Err(ConditionFault::TooHigh) => b'H',
            Err(ConditionFault::NoMemory) => b'M',
        },
        Err(_) => b'?',
    }
}

#[test]
fn conditions(rt: HostRuntime) -> Result<(), Fail> {
    for (text, wanted) in CASES {
        assert_eq!(rt; answer(rt.alloc(), text), *wanted);
    }
    Ok(())
}
