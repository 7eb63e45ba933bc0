// What is told of a run, and nothing else, makes its registers and its memory again: two modules in C that call each other, in each choice
// of their forms, with a look at all registers and bytes wherever a go halts.
use sc_base::{Bytes, Cell, Duplicate, Form, Items, Key, Kind, Name, NoMemory, Note, Shared, Word};
use sc_build::{Built, build};
use sc_core_held::{Module, NAMES, Numbers, Text};
use sc_emu::{Regs, Step, step};
use sc_image::{Linking, image_of};
use sc_interp_access::Ended;
use sc_interp_world::{Entry, World};
use sc_isa_image::Image;
use sc_mem::Memory;
use sc_mixed::{MixedEnd, MixedRun};
use sc_object::Object;
use sc_outside::MemFiles;
use sc_words::{StopAt, Walk};
use sc_world::Halt;
use std::alloc::Global;
use std::collections::BTreeMap;
use std::test::Fail;

const STACK: u32 = 1024;

const HEAP: u32 = 1024;

// `spread` makes the table 1, 3, 7, 13 and gives 24; then `again` gives 12, `ninth` 9, and `held` leads to the byte 7.
const EXIT: u32 = 52;

// Two `memset` and the 16 bytes of `kept` are told in one piece each.
const FILLS: u32 = 3;

const FIRST: &str = "#include <stdlib.h>
#include <string.h>
struct pair { int number; char *text; };
extern int spread(int *to, int n);
extern char *held(struct pair *from, int n);
extern int ninth(int a, int b, int c, int d, int e, int f, int g, int h, int *i);
static char *word = \"x\";
static int calls;
static int *last;
int again(int *of, int n)
{
    calls++;
    last = of + n;
    *last = *last + calls;
    return of[n];
}
int main(void)
{
    int table[4];
    struct pair one, two;
    char *block;
    int sum;
    sum = spread(table, 4);
    block = malloc(300);
    memset(block, *word, 300);
    one.number = sum;
    one.text = block + 1;
    two = one;
    memcpy(block + 4, table, sizeof table);
    sum = sum + again(table, 2) + ninth(1, 2, 3, 4, 5, 6, 7, 8, table);
    sum = sum + *held(&two, 7);
    free(block);
    return sum;
}
";

const SECOND: &str = "#include <stdlib.h>
#include <string.h>
struct pair { int number; char *text; };
extern int again(int *of, int n);
static int (*step)(int *, int) = again;
static struct pair kept[2];
static short halves[3];
int spread(int *to, int n)
{
    int i, sum;
    sum = 0;
    for (i = 0; i < n; i++) {
        to[i] = i * i;
        halves[i % 3] = i;
        sum = sum + step(to, i);
    }
    return sum;
}
int ninth(int a, int b, int c, int d, int e, int f, int g, int h, int *i)
{
    return h + *i;
}
char *held(struct pair *from, int n)
{
    struct pair local[2];
    char *text;
    text = malloc(200);
    memset(text, n, 200);
    local[0] = *from;
    local[1].number = halves[0];
    local[1].text = text;
    memcpy(kept, local, sizeof local);
    kept[0].text[2] = kept[1].text[199];
    free(kept[1].text);
    return kept[0].text + 2;
}
";

fn named(alloc: Global, text: &[u8]) -> Result<Name, NoMemory> {
    Name::new(alloc, text).map_err(|_| NoMemory)
}

// A module that was translated, with the number of its text.
#[derive(Drop)]
struct Part {
    number: u32,
    core: Module,
    object: Shared<Object>,
}

fn translated(alloc: Global, number: u32, name: &[u8], text: &str) -> Result<Part, NoMemory> {
    let mut folder = BTreeMap::new(alloc);
    folder.insert(
        String::from_str(alloc, "m.c")?,
        Bytes::from_slice(alloc, text.as_bytes())?,
    )?;
    let mut files = MemFiles::new(alloc, folder, Vec::new(alloc));
    let name = named(alloc, name)?;
    let built = build(alloc, &name, "m.c", &mut files).map_err(|_| NoMemory)?;
    let Built {
        core,
        scopes,
        places,
        kept,
        object,
        fast,
    } = built;
    drop(scopes);
    drop(places);
    drop(kept);
    drop(fast);
    Ok(Part {
        number,
        core: Module::new(alloc, core)?,
        object,
    })
}

// The library's functions, and those of the modules behind them.
fn functions(alloc: Global, first: &Part, second: &Part) -> Result<Items<Key>, NoMemory> {
    let mut keys = Items::new(alloc);
    for (name, _) in &NAMES {
        keys.push(Key {
            module: None,
            name: named(alloc, name)?,
        })?;
    }
    let mut numbers = Numbers::new(alloc);
    numbers.mention(alloc, first.core.get())?;
    numbers.mention(alloc, second.core.get())?;
    for key in numbers.as_slice() {
        keys.push(key.copy(alloc)?)?;
    }
    Ok(keys)
}

fn linking(alloc: Global, part: &Part, form: Form) -> Result<Linking, NoMemory> {
    Ok(Linking {
        number: part.number,
        name: part.core.get().name.copy(alloc)?,
        form,
        object: part.object.share()?,
    })
}

fn image(
    alloc: Global,
    first: &Part,
    second: &Part,
    forms: (Form, Form),
) -> Result<Image, NoMemory> {
    let mut modules = Items::new(alloc);
    modules.push(linking(alloc, first, forms.0)?)?;
    modules.push(linking(alloc, second, forms.1)?)?;
    let functions = functions(alloc, first, second)?;
    image_of(alloc, modules.as_slice(), functions.as_slice()).map_err(|_| NoMemory)
}

fn text(part: &Part, form: Form) -> Result<Text, NoMemory> {
    Ok(Text {
        number: part.number,
        core: part.core.share()?,
        form,
    })
}

fn texts(
    alloc: Global,
    first: &Part,
    second: &Part,
    forms: (Form, Form),
) -> Result<Items<Text>, NoMemory> {
    let mut texts = Items::new(alloc);
    texts.push(text(first, forms.0)?)?;
    texts.push(text(second, forms.1)?)?;
    Ok(texts)
}

fn stops(alloc: Global) -> Result<Items<StopAt>, NoMemory> {
    let mut stops = Items::new(alloc);
    stops.push(StopAt::InFun(None, named(alloc, b"again")?))?;
    stops.push(StopAt::InFun(None, named(alloc, b"held")?))?;
    stops.push(StopAt::AtLine(named(alloc, b"a")?, 30))?;
    stops.push(StopAt::AtLine(named(alloc, b"b")?, 33))?;
    Ok(stops)
}

// What the last entry lets come next: registers are set; a0 gets a tag; an interpreted call, or the library behind changes of memory,
// gives back to compiled code.
#[derive(Clone, Copy, Debug, PartialEq, Eq)]
enum Last {
    Nothing,
    Crossing,
    Tagging,
    Leaving,
    Serving,
}

#[derive(Clone, Copy)]
struct Born {
    size: u32,
    kind: Kind,
    base: u32,
    live: bool,
}

// What the entries so far make: registers, memory and objects; the active calls; how many instructions and pieces of equal bytes there
// were; and what may come next.
#[derive(Drop)]
struct Fold {
    regs: Regs,
    memory: Memory,
    born: Vec<Born>,
    active: Vec<(u32, Form)>,
    executed: u64,
    fills: u32,
    calls: u64,
    last: Last,
}

// The state in which a run begins.
fn begun(alloc: Global) -> Result<Fold, NoMemory> {
    let mut regs = Regs::new();
    let end = Word {
        bits: 0x2000_0000,
        tag: 0,
    };
    regs.set(2, end);
    regs.set_pc(0x0000_f000);
    Ok(Fold {
        regs,
        memory: Memory::new(alloc, STACK, HEAP)?,
        born: Vec::new(alloc),
        active: Vec::new(alloc),
        executed: 0,
        fills: 0,
        calls: 0,
        last: Last::Nothing,
    })
}

// What an entry makes. Each answers whether it may stand there and could be carried out.
impl Fold {
    fn execute(&mut self, image: &Image, pc: u32, word: u32) -> bool {
        if self.regs.pc() != pc || image.word(pc) != Some(word) {
            return false;
        }
        self.executed = self.executed.wrapping_add(1);
        match step(&mut self.regs, image, &mut self.memory) {
            Step::Went => true,
            Step::Service(n) => {
                if n == 4 {
                    self.last = Last::Tagging;
                }
                word == 0x0000_0073
            }
            Step::AtReturn | Step::Stopped(_) | Step::NoMemory => false,
        }
    }

    fn set_register(&mut self, r: u8, word: Word) -> bool {
        if r < 32 {
            self.regs.set(r, word);
            true
        } else {
            self.regs.set_pc(word.bits);
            r == 32 && word.tag == 0
        }
    }

    fn put(&mut self, at: u32, size: u8, word: Word) -> Result<bool, NoMemory> {
        let done = match size {
            1 => self.memory.raw_store(at, 1, word)?,
            2 => self.memory.raw_store(at, 2, word)?,
            4 => self.memory.raw_store(at, 4, word)?,
            _ => None,
        };
        Ok(done.is_some())
    }

    fn fill(&mut self, at: u32, count: u32, byte: u8) -> Result<bool, NoMemory> {
        self.fills = self.fills.wrapping_add(1);
        let word = Word {
            bits: u32::from(byte),
            tag: 0,
        };
        for k in 0..count {
            if !self.put(at.wrapping_add(k), 1, word)? {
                return Ok(false);
            }
        }
        Ok(true)
    }

    fn copy(&mut self, to: u32, from: u32, size: u32) -> Result<bool, NoMemory> {
        let done = self.memory.raw_copy(to, from, size)?;
        Ok(done.is_some())
    }

    fn birth(&mut self, id: u32, size: u32, kind: Kind, base: u32) -> Result<bool, NoMemory> {
        for k in 0..size {
            let done = self.memory.set_cell(base.wrapping_add(k), Cell::Unwritten)?;
            if done.is_none() {
                return Ok(false);
            }
        }
        self.born.push(Born {
            size,
            kind,
            base,
            live: true,
        })?;
        Ok(self.born.len() == id as usize)
    }

    fn death(&mut self, id: u32) -> bool {
        match self.born.get_mut(id.wrapping_sub(1) as usize) {
            None => false,
            Some(born) => {
                let lived = born.live;
                born.live = false;
                lived
            }
        }
    }

    fn innermost(&self) -> Option<Form> {
        match self.active.last() {
            None => None,
            Some((_, form)) => Some(*form),
        }
    }

    fn leave(&mut self, fun: u32) -> bool {
        match self.active.pop() {
            None => false,
            Some((entered, form)) => {
                if form == Form::Source {
                    self.last = Last::Leaving;
                }
                entered == fun
            }
        }
    }

    // Behind changes of memory the library can still give back.
    fn changes(&mut self, last: Last) {
        if last == Last::Serving {
            self.last = Last::Serving;
        }
    }

    // Compiled code is entered, or gone on with: the registers that change are set next.
    fn crosses(&mut self, may: bool) -> bool {
        self.last = Last::Crossing;
        may
    }

    fn note(&mut self, image: &Image, last: Last, note: Note) -> Result<bool, NoMemory> {
        match note {
            Note::Start { stack, heap } => Ok(stack == STACK && heap == HEAP),
            Note::Call { .. } => {
                let may = self.innermost() != Some(Form::Object);
                Ok(self.crosses(may))
            }
            Note::Back { .. } => {
                let may = last == Last::Leaving || last == Last::Serving;
                let waits = self.innermost() == Some(Form::Object);
                Ok(self.crosses(may && waits))
            }
            Note::SetReg { r, word } => {
                let done = self.set_register(r, word);
                Ok(self.crosses(done && last == Last::Crossing))
            }
            Note::Enter { fun, form } => {
                self.active.push((fun, form))?;
                Ok(true)
            }
            Note::Leave { fun } => Ok(self.leave(fun)),
            Note::At { .. } => Ok(self.innermost() == Some(Form::Source)),
            Note::Lib { .. } => {
                self.last = Last::Serving;
                Ok(true)
            }
            Note::Exec { pc, word } => Ok(self.execute(image, pc, word)),
            Note::Tag { word } => {
                self.regs.set(10, word);
                Ok(last == Last::Tagging)
            }
            Note::Put { at, size, word } => {
                self.changes(last);
                self.put(at, size, word)
            }
            Note::Birth {
                id,
                size,
                kind,
                base,
            } => {
                self.changes(last);
                self.birth(id, size, kind, base)
            }
            Note::Death { id } => {
                self.changes(last);
                Ok(self.death(id))
            }
            Note::Copy { to, from, size } => {
                self.changes(last);
                self.copy(to, from, size)
            }
        }
    }

    fn entry(&mut self, image: &Image, entry: Entry) -> Result<bool, NoMemory> {
        let last = self.last;
        self.last = Last::Nothing;
        if let Entry::One(Note::Enter { .. } | Note::Leave { .. } | Note::At { .. }) = entry {
            self.calls = self.calls.wrapping_add(1);
        }
        match entry {
            Entry::One(note) => self.note(image, last, note),
            Entry::Fill { at, count, byte } => {
                self.changes(last);
                self.fill(at, count, byte)
            }
        }
    }

    // The first of some entries that may not stand where it stands.
    fn odd_entry(&mut self, image: &Image, entries: &[Entry]) -> Result<Option<Entry>, NoMemory> {
        for entry in entries {
            if !self.entry(image, *entry)? {
                return Ok(Some(*entry));
            }
        }
        Ok(None)
    }
}

// What does not hold: an entry may not stand where it stands; more or fewer notes of calls and lines were taken before; or an object, the address of some byte, or the registers are not as
// in the run.
#[derive(Clone, Copy, Debug, PartialEq, Eq)]
enum Odd {
    Told(Entry),
    Before(u64),
    Object(u32),
    Byte(u32),
    Registers,
}

impl Fold {
    // The first of so many addresses at which the world has another byte, or another word.
    fn odd_byte(&self, world: &World, from: u32, count: u32) -> Option<Odd> {
        for k in 0..count {
            let at = from.wrapping_add(k);
            if world.load(at, 1) != self.memory.raw_load(at, 1)
                || world.load(at, 4) != self.memory.raw_load(at, 4)
            {
                return Some(Odd::Byte(at));
            }
        }
        None
    }

    fn is_same(&self, world: &World, id: u32, b: Born) -> bool {
        match world.objects().find(id) {
            None => false,
            Some(o) => {
                let base = if b.live { Some(b.base) } else { None };
                o.size == b.size && o.kind == b.kind && o.live == b.live && world.base(id) == base
            }
        }
    }

    // The first object that is another one, or the first byte of a live one.
    fn odd_object(&self, world: &World) -> Option<Odd> {
        let mut id = 0_u32;
        for b in self.born.as_slice() {
            id = id.wrapping_add(1);
            if !self.is_same(world, id, *b) {
                return Some(Odd::Object(id));
            }
            if b.live {
                if let Some(odd) = self.odd_byte(world, b.base, b.size) {
                    return Some(odd);
                }
            }
        }
        if world.objects().len() as usize == self.born.len() {
            None
        } else {
            Some(Odd::Object(id.wrapping_add(1)))
        }
    }

    fn has_registers(&self, run: &MixedRun) -> bool {
        let machine = run.machine();
        self.regs.pc() == machine.pc
            && *self.regs.words() == machine.words
            && self.executed == machine.executed
    }

    // What is not as in the run: the objects, all bytes of the heap and of the stack, and the registers are looked at.
    fn odd_in(&self, run: &MixedRun) -> Option<Odd> {
        let world = run.world();
        if let Some(odd) = self.odd_object(world) {
            return Some(odd);
        }
        if let Some(odd) = self.odd_byte(world, 0x1000_0000, HEAP) {
            return Some(odd);
        }
        if let Some(odd) = self.odd_byte(world, 0x2000_0000 - STACK, STACK) {
            return Some(odd);
        }
        if self.has_registers(run) {
            None
        } else {
            Some(Odd::Registers)
        }
    }

    // What is recorded is folded on.
    fn odd_now(&mut self, image: &Image, run: &mut MixedRun) -> Result<Option<Odd>, NoMemory> {
        let taken = run.take_record();
        if !taken.whole || taken.before != self.calls {
            return Ok(Some(Odd::Before(taken.before)));
        }
        match self.odd_entry(image, taken.entries.as_slice())? {
            Some(entry) => Ok(Some(Odd::Told(entry))),
            None => Ok(self.odd_in(run)),
        }
    }
}

fn exit_of(run: &MixedRun) -> Option<u32> {
    match run.end() {
        Some(MixedEnd::Meant(Ended::Exit(n))) => Some(*n),
        Some(_) => None,
        None => None,
    }
}

// What a run came to: what does not hold, its exit, the calls that were not left, and how many pieces of equal bytes were told.
#[derive(Clone, Copy, Debug, PartialEq, Eq)]
struct Outcome {
    odd: Option<Odd>,
    exit: Option<u32>,
    active: usize,
    fills: u32,
}

// A run up to its end or to what does not hold. It halts at its stops, and where some turns were taken.
fn ran(
    alloc: Global,
    first: &Part,
    second: &Part,
    forms: (Form, Form),
) -> Result<Outcome, NoMemory> {
    let texts = texts(alloc, first, second, forms)?;
    let stops = stops(alloc)?;
    let own = image(alloc, first, second, forms)?;
    let image = image(alloc, first, second, forms)?;
    let key = Key {
        module: None,
        name: named(alloc, b"main")?,
    };
    let input = Items::new(alloc);
    let (stack, heap) = (u64::from(STACK), u64::from(HEAP));
    let mut run = MixedRun::start(
        alloc,
        texts.as_slice(),
        image,
        &key,
        stack,
        heap,
        input,
        true,
    )?;
    let mut fold = begun(alloc)?;
    let mut odd = None;
    for _ in 0..1000 {
        let halt = run.go(texts.as_slice(), stops.as_slice(), Walk::Cont, 97);
        odd = fold.odd_now(&own, &mut run)?;
        if odd.is_some() || matches!(halt, Halt::Ended) {
            break;
        }
    }
    Ok(Outcome {
        odd,
        exit: exit_of(&run),
        active: fold.active.len(),
        fills: fold.fills,
    })
}

#[test]
fn what_is_told_makes_registers_and_memory(rt: HostRuntime) -> Result<(), Fail> {
    let alloc = rt.alloc();
    let first = translated(alloc, 0, b"a", FIRST)?;
    let second = translated(alloc, 1, b"b", SECOND)?;
    let whole = Outcome {
        odd: None,
        exit: Some(EXIT),
        active: 0,
        fills: FILLS,
    };
    for forms in [
        (Form::Source, Form::Source),
        (Form::Object, Form::Source),
        (Form::Source, Form::Object),
        (Form::Object, Form::Object),
    ] {
        assert_eq!(rt; ran(alloc, &first, &second, forms)?, whole);
    }
    Ok(())
}
