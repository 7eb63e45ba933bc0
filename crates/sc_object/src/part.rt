// What a file is put together from.

use sc_base::Bytes;

/// A section of the file, and what its header says but for places (gABI, "Section Header").
#[derive(Drop)]
pub struct Part {
    pub name: Bytes,
    pub kind: usize,
    pub flags: usize,
    pub bytes: Bytes,
    pub size: usize,
    pub link: usize,
    pub info: usize,
    pub align: usize,
    pub entry: usize,
}

/// The relocations of a section: the name of their part, the number of the section in the file, and their entries.
#[derive(Drop)]
pub struct Rela {
    pub name: Bytes,
    pub number: usize,
    pub bytes: Bytes,
}

/// A table of symbols, and the names to which it points.
#[derive(Drop)]
pub struct SymbolTable {
    pub entries: Bytes,
    pub names: Bytes,
}

/// The parts of a file so far: their contents from the header's end on, their headers, and their names.
#[derive(Drop)]
pub struct Laid {
    pub contents: Bytes,
    pub headers: Bytes,
    pub names: Bytes,
}
