// Steps of memory and of the image, many times over, for counting what one step costs.
ghost use Rattle.std.specs.Prelude.{◌≡◌, ℕ, ◌+◌, ◌*◌, ◌<◌, ◌≤◌, length, None, IfSome};
ghost use Rattle.sc_isa_image.specs.Lookups.{text_at};

use sc_base::{Items, Key, Kind, Name, NoMemory, Word};
use sc_isa_image::{Image, TextAt};
use sc_mem::Memory;
use sc_object::FrameTable;
use std::alloc::Global;

/// Where the texts begin.
const TEXTS: u32 = 0x0010_0000;

/// As many texts of four words as are placed at most.
const MOST_TEXTS: u32 = 1000000;

/// Does so many steps of one kind over so many objects, keys or texts: `load`, `store`, `at`, `births`, `value` or `word`. It gives a sum
/// that takes part in each of them.
pub fn measure(alloc: Global, what: &[u8], count: u32, steps: u32) -> Option<u32> {
    if what == b"value".as_slice() {
        return values(alloc, count, steps);
    }
    if what == b"word".as_slice() {
        return words(alloc, count, steps);
    }
    let mut memory = Memory::new(alloc, 4096, 4194304).ok()?;
    let objects = allocated(alloc, &mut memory, count).ok()?;
    if what == b"load".as_slice() {
        Some(loads(&memory, objects.as_slice(), steps))
    } else if what == b"store".as_slice() {
        Some(stores(&mut memory, objects.as_slice(), steps))
    } else if what == b"at".as_slice() {
        Some(addresses(&memory, objects.as_slice(), steps))
    } else if what == b"births".as_slice() {
        Some(births(&mut memory, steps))
    } else {
        None
    }
}

// Pointers to this many allocated objects of 16 bytes, as far as the heap has blocks. The first word of each is 5.
fn allocated(alloc: Global, memory: &mut Memory, count: u32) -> Result<Vec<Word>, NoMemory> {
    let mut objects = Vec::new(alloc);
    for _ in 0..count {
        if let Some(p) = allocate(memory) {
            objects.push(p)?;
        }
    }
    Ok(objects)
}

fn allocate(memory: &mut Memory) -> Option<Word> {
    let base = match memory.take(16) {
        Ok(Some(base)) => base,
        Ok(None) => return None,
        Err(_) => return None,
    };
    match memory.birth(16, Kind::Heap, base) {
        Ok(tag) => {
            memory.init(base, 4, Word { bits: 5, tag: 0 }).ok()?;
            Some(Word { bits: base, tag })
        }
        Err(_) => None,
    }
}

// Frees an allocated object.
fn free(memory: &mut Memory, id: u32) {
    let Some(object) = memory.find(id) else {
        return;
    };
    let Kind::Heap = object.kind else {
        return;
    };
    if object.live {
        memory.death(id);
        memory.give(object.base);
    }
}

// The pointer whose turn it is.
fn chosen(objects: &[Word], turn: u32) -> Word {
    if objects.is_empty() {
        return Word { bits: 0, tag: 0 };
    }
    let n = objects.len() as u64;
    objects[(u64::from(turn) * 7919 % n) as usize]
}

fn loads(memory: &Memory, objects: &[Word], steps: u32) -> u32 {
    let mut sum = 0u32;
    for turn in 0..steps {
        if let Ok(word) = memory.load(chosen(objects, turn), 4, false) {
            sum = sum.wrapping_add(word.bits);
        }
    }
    sum
}

fn stores(memory: &mut Memory, objects: &[Word], steps: u32) -> u32 {
    let mut sum = 0u32;
    for turn in 0..steps {
        let word = Word { bits: turn, tag: 0 };
        if memory.store(chosen(objects, turn), 4, word).is_ok() {
            sum = sum.wrapping_add(1);
        }
    }
    sum
}

fn addresses(memory: &Memory, objects: &[Word], steps: u32) -> u32 {
    let mut sum = 0u32;
    for turn in 0..steps {
        if let Some(id) = memory.at(chosen(objects, turn).bits) {
            sum = sum.wrapping_add(id);
        }
    }
    sum
}

fn births(memory: &mut Memory, steps: u32) -> u32 {
    let mut sum = 0u32;
    for _ in 0..steps {
        if let Some(p) = allocate(memory) {
            free(memory, p.tag);
            sum = sum.wrapping_add(1);
        }
    }
    sum
}

// The name whose bytes are a number's.
fn numbered(alloc: Global, n: u32) -> Option<Name> {
    Name::new(alloc, &n.to_le_bytes()).ok()
}

// Looks values up among this many keys, and a word of a stub for each.
fn values(alloc: Global, count: u32, steps: u32) -> Option<u32> {
    let mut image = Image::new(alloc);
    let mut keys = Vec::new(alloc);
    for n in 0..count {
        let k = Key {
            module: None,
            name: numbered(alloc, n)?,
        };
        let again = Key {
            module: None,
            name: numbered(alloc, n)?,
        };
        keys.push(again).ok()?;
        image.make_room(0, 0, 0, 1).ok()?;
        if image.functions() < 65536 && !image.is_function(&k) && image.value(&k).is_none() {
            image.put_fun(k);
        }
    }
    let mut sum = 0u32;
    for turn in 0..steps {
        if keys.is_empty() {
            return None;
        }
        let place = u64::from(turn) * 7919 % keys.len() as u64;
        if let Some(at) = image.value(&keys[place as usize]) {
            sum = sum.wrapping_add(image.word(at).unwrap_or(0));
        }
    }
    Some(sum)
}

// Reads words of this many placed texts, one at a time.
fn words(alloc: Global, count: u32, steps: u32) -> Option<u32> {
    if count == 0 || count > MOST_TEXTS {
        return None;
    }
    let image = placed(alloc, count)?;
    let mut sum = 0u32;
    for turn in 0..steps {
        let text = (u64::from(turn) * 7919 % u64::from(count)) as u32;
        let at = TEXTS + 16 * text + 4 * (turn % 4);
        sum = sum.wrapping_add(image.word(at).unwrap_or(0));
    }
    Some(sum)
}

// An image with this many texts.
fn placed(alloc: Global, count: u32) -> Option<Image>
    requires { count ≤ MOST_TEXTS }
{
    let mut image = Image::new(alloc);
    for n in 0..count {
        place(alloc, &mut image, n)?;
    }
    Some(image)
}

// Puts a text of four words behind those with lower numbers.
fn place(alloc: Global, image: &mut Image, n: u32) -> Option<()>
    requires few { n < MOST_TEXTS }
    requires free { (pc : ℕ) → TEXTS + 16 * n ≤ pc → text_at image.old pc ≡ None }
    ensures { IfSome result (λ _. (pc : ℕ) → TEXTS + 16 * (n + 1) ≤ pc → text_at image.new pc ≡ None) }
{
    let at = text(alloc, n)?;
    let words = vec![in alloc; n, n, n, n].ok()?;
    image.make_room(1, 0, 0, 0).ok()?;
    image.put_text(at, words);
    Some(())
}

// The place of the text with a number.
fn text(alloc: Global, n: u32) -> Option<TextAt>
    requires { n < MOST_TEXTS }
    ensures { IfSome result (λ t. t.start ≡ TEXTS + 16 * n) }
{
    let name = numbered(alloc, n)?;
    let module = numbered(alloc, n)?;
    let frame = FrameTable {
        symbol: n,
        cost: 16,
        blocks: Items::new(alloc),
    };
    Some(TextAt {
        fun: Key { module: None, name },
        module,
        start: TEXTS + 16 * n,
        frame,
    })
}
