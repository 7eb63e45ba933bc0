// Words with relocations, encoded by hand from the RISC-V manual and the psABI.
use super::{relocated, target_of};
use std::test::Fail;

// A relocation by its type, whether the word is the second of a pair, the symbol's value, the addend, the place, the word
// before and the word after.
const WORDS: [(u8, bool, u32, i32, u32, u32, u32); 9] = [
    // R_RISCV_32
    (
        1,
        false,
        0x0800_0ffc,
        4,
        0x0010_0000,
        0xdead_beef,
        0x0800_1000,
    ),
    // lui a0 and addi a0, a0: the lower part is negative, so the upper one is one more
    (
        26,
        false,
        0x0800_0ffc,
        0,
        0x0010_0000,
        0x0000_0537,
        0x0800_1537,
    ),
    (
        27,
        false,
        0x0800_0ffc,
        0,
        0x0010_0004,
        0x0005_0513,
        0xffc5_0513,
    ),
    // lui a0 and lw a0, 4(a0): the lower part is positive
    (
        26,
        false,
        0x0800_0004,
        0,
        0x0010_0000,
        0x0000_0537,
        0x0800_0537,
    ),
    (
        27,
        false,
        0x0800_0004,
        0,
        0x0010_0004,
        0x0005_2503,
        0x0045_2503,
    ),
    // sw a1, -4(a0)
    (
        28,
        false,
        0x0800_0ffc,
        0,
        0x0010_0008,
        0x00b5_2023,
        0xfeb5_2e23,
    ),
    // auipc ra and jalr ra, ra: from a text back to a stub
    (
        19,
        false,
        0x0001_0008,
        0,
        0x0010_0000,
        0x0000_0097,
        0xfff1_0097,
    ),
    (
        19,
        true,
        0x0001_0008,
        0,
        0x0010_0000,
        0x0000_80e7,
        0x0080_80e7,
    ),
    // a type that changes no word
    (
        0,
        false,
        0x0001_0008,
        0,
        0x0010_0000,
        0x0000_80e7,
        0x0000_80e7,
    ),
];

#[test]
fn words_with_relocations(rt: HostRuntime) -> Result<(), Fail> {
    for (kind, second, symbol, addend, place, word, expected) in &WORDS {
        let at = target_of(*kind, *symbol, *addend, *place);
        assert_eq!(rt; relocated(*kind, *second, at, *word), *expected, "{kind}");
    }
    Ok(())
}
