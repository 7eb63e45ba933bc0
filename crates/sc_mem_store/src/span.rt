// Where the bytes of objects stand.
ghost use Rattle.std.specs.Prelude.{IfOk};
ghost use Rattle.sc_objects.specs.Numbered.{object_of};
ghost use Rattle.sc_mem_store.specs.Holding.{Spans};

use sc_base::NoMemory;
use sc_mem::Memory;

/// Some bytes in a row: the address of the first, and how many they are.
#[derive(Clone, Copy)]
pub struct Span {
    pub base: u32,
    pub count: u32,
}

/// The `n` bytes of a live object from an offset on, of which those outside the object are left out. None of an object that
/// is not born.
pub fn span_of(memory: &Memory, id: u32, at: u64, n: u32) -> Result<Span, NoMemory>
    ensures { IfOk result (λ s. Spans (object_of memory.now.flat.objects id) at n s.base s.count) }
{
    let Some(object) = memory.find(id) else {
        return Ok(Span { base: 0, count: 0 });
    };
    if !object.live {
        return Err(NoMemory);
    }
    if u64::from(object.size) <= at {
        return Ok(Span { base: 0, count: 0 });
    }
    let from = at as u32;
    let Some(base) = object.base.checked_add(from) else {
        return Err(NoMemory);
    };
    Ok(Span {
        base,
        count: n.min(object.size - from),
    })
}
