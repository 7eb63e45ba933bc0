// Compiled code that cannot go on. No compiler made the words: `main` has a frame of 16 bytes and one block without objects, and its
// text stands at 0x00100000.
use sc_base::{Bytes, Form, Int, Items, Key, Name, NoMemory, Note, Shared, Word};
use sc_core::{Core, CoreStmt, Fun};
use sc_core_held::Text;
use sc_emu::Crash;
use sc_image::{Linking, image_of};
use sc_interp_world::Entry;
use sc_isa_image::Image;
use sc_mixed::{MixedEnd, MixedRun};
use sc_object::{BlockTable, FrameTable, Object, Section, SectionKind, Symbol};
use sc_types::{CType, Signature, Structs};
use sc_words::Walk;
use std::alloc::Global;
use std::test::Fail;

// Where the text of `main` begins.
const TEXT: u32 = 0x0010_0000;

// A text of `main`: its words; how many of them are carried out; the address and the cause of the crash; and the program counter and
// register 5 then.
const CASES: [(&[u32], usize, u32, Crash, u32, u32); 8] = [
    // jalr x0, 0(x0)
    (&[0x0000_0067], 1, 0, Crash::BadFetch, 0, 0),
    // jalr x0, 2(x0)
    (&[0x0020_0067], 1, 2, Crash::Misfetch, 2, 0),
    // no instruction
    (&[0x0000_0000], 0, TEXT, Crash::Illegal, TEXT, 0),
    // lw x5, 1(x2)
    (&[0x0011_2283], 0, TEXT, Crash::Misaligned, TEXT, 0),
    // sw x0, 0(x0)
    (&[0x0000_2023], 0, TEXT, Crash::Outside, TEXT, 0),
    // addi x5, x0, 9; ecall: there is no such service
    (
        &[0x0090_0293, 0x0000_0073],
        2,
        0x0010_0004,
        Crash::Service,
        0x0010_0008,
        9,
    ),
    // addi x5, x0, 3; ecall: no call is there to be left
    (
        &[0x0030_0293, 0x0000_0073],
        2,
        0x0010_0004,
        Crash::Service,
        0x0010_0008,
        3,
    ),
    // jalr x0, 0(x1): the call was not left
    (&[0x0000_8067], 1, 0xf000, Crash::Service, 0xf000, 0),
];

// What is told up to the text of `main`, which is function 0: it is called, to return to 0x0000f000, and its stub leads to the text, by
// `lui x6, 0x100` and `jalr x0, 0(x6)`.
const FRONT: [Note; 6] = [
    Note::Start {
        stack: 4096,
        heap: 64,
    },
    Note::Call { fun: 0 },
    Note::SetReg {
        r: 1,
        word: Word {
            bits: 0x0000_f000,
            tag: 0,
        },
    },
    Note::SetReg {
        r: 32,
        word: Word {
            bits: 0x0001_0000,
            tag: 0,
        },
    },
    Note::Exec {
        pc: 0x0001_0000,
        word: 0x0010_0337,
    },
    Note::Exec {
        pc: 0x0001_0004,
        word: 0x0003_0067,
    },
];

fn name(alloc: Global, text: &[u8]) -> Result<Name, NoMemory> {
    Name::new(alloc, text).map_err(|_| NoMemory)
}

fn main_key(alloc: Global) -> Result<Key, NoMemory> {
    Ok(Key {
        module: None,
        name: name(alloc, b"main")?,
    })
}

fn text_section(alloc: Global, words: &[u32]) -> Result<Section, NoMemory> {
    let mut bytes = Vec::new(alloc);
    for word in words {
        bytes.extend_from_slice(&word.to_le_bytes())?;
    }
    let size = u32::try_from(bytes.len()).map_err(|_| NoMemory)?;
    Ok(Section {
        name: Bytes::from_slice(alloc, b"main")?,
        kind: SectionKind::Text,
        bytes: Bytes::from_vec(bytes),
        size,
    })
}

fn symbols(alloc: Global, size: u32) -> Result<Items<Symbol>, NoMemory> {
    let mut symbols = Items::new(alloc);
    symbols.push(Symbol {
        name: Bytes::from_slice(alloc, b"main")?,
        section: Some(0),
        global: true,
        kind: 2,
        size,
    })?;
    Ok(symbols)
}

fn frames(alloc: Global) -> Result<Items<FrameTable>, NoMemory> {
    let mut blocks = Items::new(alloc);
    blocks.push(BlockTable {
        line: 1,
        slots: Items::new(alloc),
    })?;
    let mut frames = Items::new(alloc);
    frames.push(FrameTable {
        symbol: 0,
        cost: 16,
        blocks,
    })?;
    Ok(frames)
}

fn object(alloc: Global, words: &[u32]) -> Result<Object, NoMemory> {
    let text = text_section(alloc, words)?;
    let symbols = symbols(alloc, text.size)?;
    let mut sections = Items::new(alloc);
    sections.push(text)?;
    Ok(Object {
        sections,
        symbols,
        relocs: Items::new(alloc),
        frames: frames(alloc)?,
    })
}

// A module in object form whose object has these words, linked with `main` as the only function.
fn image(alloc: Global, words: &[u32]) -> Result<Image, NoMemory> {
    let mut modules = Items::new(alloc);
    modules.push(Linking {
        number: 0,
        name: name(alloc, b"m")?,
        form: Form::Object,
        object: Shared::new(alloc, object(alloc, words)?)?,
    })?;
    let mut functions = Items::new(alloc);
    functions.push(main_key(alloc)?)?;
    image_of(alloc, modules.as_slice(), functions.as_slice()).map_err(|_| NoMemory)
}

// `int main(void)`. Its body is not looked at, since its calls run the object.
fn main_function(alloc: Global) -> Result<Fun, NoMemory> {
    let mut blocks = Items::new(alloc);
    blocks.push(Items::new(alloc))?;
    Ok(Fun {
        name: name(alloc, b"main")?,
        external: true,
        line: 1,
        of: Signature {
            result: CType::Int(Int::Int, false),
            params: Items::new(alloc),
            variadic: false,
        },
        blocks,
        cost: 16,
        body: Shared::new(alloc, CoreStmt::Empty(1))?,
    })
}

fn texts(alloc: Global) -> Result<Items<Text>, NoMemory> {
    let mut funs = Items::new(alloc);
    funs.push(Shared::new(alloc, main_function(alloc)?)?)?;
    let core = Core {
        name: name(alloc, b"m")?,
        funs,
        objects: Items::new(alloc),
        literals: Items::new(alloc),
        births: Items::new(alloc),
        structs: Structs::new(alloc),
        declared: Items::new(alloc),
    };
    let mut texts = Items::new(alloc);
    texts.push(Text::new(alloc, 0, Form::Object, core)?)?;
    Ok(texts)
}

// Where and why compiled code could not go on, if so the run ended.
fn crash_of(run: &MixedRun) -> Option<(u32, Crash)> {
    match run.end() {
        Some(MixedEnd::Crashed(at, cause)) => Some((*at, *cause)),
        Some(MixedEnd::Meant(_)) => None,
        None => None,
    }
}

// What has to be told of a run that carried out so many of these words.
fn told(alloc: Global, words: &[u32], done: usize) -> Result<Vec<Entry>, NoMemory> {
    let mut told = Vec::new(alloc);
    for note in &FRONT {
        told.push(Entry::One(*note))?;
    }
    let mut pc = TEXT;
    for word in words.iter().take(done) {
        told.push(Entry::One(Note::Exec { pc, word: *word }))?;
        pc = pc.wrapping_add(4);
    }
    Ok(told)
}

// A run of `main` with these words, as far as it goes.
fn gone(alloc: Global, texts: &[Text], words: &[u32]) -> Result<MixedRun, NoMemory> {
    let image = image(alloc, words)?;
    let key = main_key(alloc)?;
    let input = Items::new(alloc);
    let mut run = MixedRun::start(alloc, texts, image, &key, 4096, 64, input, true)?;
    run.go(texts, &[], Walk::Cont, 100);
    Ok(run)
}

fn plain(bits: u32) -> Word {
    Word { bits, tag: 0 }
}

// The registers then: where the call returns to, the end of the stack, and what the text and the stub have set.
fn registers(t0: u32) -> [Word; 32] {
    let mut words = [plain(0); 32];
    words[1] = plain(0xf000);
    words[2] = plain(0x2000_0000);
    words[5] = plain(t0);
    words[6] = plain(TEXT);
    words
}

#[test]
fn compiled_code_that_cannot_go_on_says_where_and_why(rt: HostRuntime) -> Result<(), Fail> {
    let alloc = rt.alloc();
    let texts = texts(alloc)?;
    for (words, done, at, cause, pc, t0) in &CASES {
        let mut run = gone(alloc, texts.as_slice(), words)?;
        assert_eq!(rt; crash_of(&run), Some((*at, *cause)));
        let machine = run.machine();
        assert_eq!(rt; machine.pc, *pc, "{cause:?} at {at}");
        assert_eq!(rt; machine.words, registers(*t0), "{cause:?} at {at}");
        assert_eq!(rt;
            machine.executed,
            (*done as u64).wrapping_add(2),
            "{cause:?} at {at}"
        );
        let told = told(alloc, words, *done)?;
        assert_eq!(rt;
            run.take_record().entries.as_slice(),
            told.as_slice(),
            "{cause:?} at {at}"
        );
    }
    Ok(())
}
