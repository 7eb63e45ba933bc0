// The tests of undefined steps, each by its rule, over objects by number (ANSI 3.2.2.1, 3.3, 4.10.3).
ghost use Rattle.std.specs.Prelude.{◌≡◌, ◌&&◌, ◌==◌, ◌+◌, ◌<◌, ◌-ℤ◌, pos, true, false, MatchOption, None, Some, IfOk, IfSome};
ghost use Rattle.sc_meaning.specs.Values as value;
ghost use Rattle.sc_meaning.specs.Violations as spec;
ghost use Rattle.sc_meaning.specs.World.{Object};
ghost use Rattle.sc_rules.specs.Tests as tests;
ghost use Rattle.std.specs.List.{list_all};

use sc_base::{Kind, NoMemory, Rule};
use sc_interp_world::{Cell, Content, Facts, Few, Store};
use sc_meaning_values::{Shape, Value};

/// The offset of a pointer, 0 for what is none.
pub fn offset_of(p: &Value) -> u32
    ensures { result ≡ spec.offset_of p.now }
{
    match &p.shape {
        Shape::Number(_) => 0,
        Shape::FunctionAt(_) => 0,
        Shape::Pointer(_, i) => *i,
    }
}

/// The object into which a pointer points.
#[inline(always)]
pub fn object_of(objects: &Store, p: &Value) -> Option<Facts>
    ensures { MatchOption result (spec.object_of objects.now.objects p.now ≡ None) (λ f. (o : Object) × (spec.object_of objects.now.objects p.now ≡ Some o) × (f.size ≡ o.size) × (f.kind ≡ o.kind) × (f.live ≡ o.live)) }
{
    match &p.shape {
        Shape::Number(_) => None,
        Shape::FunctionAt(_) => None,
        Shape::Pointer(o, _) => objects.find(*o),
    }
}

/// U4: the pointer is null.
pub fn is_null(p: &Value) -> bool
    ensures { result ≡ spec.is_null p.now }
{
    match &p.shape {
        Shape::Number(n) => *n == 0,
        Shape::FunctionAt(_) => false,
        Shape::Pointer(_, _) => false,
    }
}

/// U3: the object is dead.
#[tactic(auto, using(crate::proofs::Facts::dead_so))]
pub fn is_dead(objects: &Store, p: &Value) -> bool
    ensures { result ≡ spec.is_dead objects.now.objects p.now }
{
    match object_of(objects, p) {
        None => false,
        Some(o) => !o.live,
    }
}

/// U2: the bytes are not inside the object, or the pointer has none.
#[tactic(auto, using(crate::proofs::Facts::outside_so))]
pub fn is_outside(objects: &Store, p: &Value, further: u32, n: u32) -> bool
    ensures { result ≡ spec.is_outside objects.now.objects p.now further n }
{
    let end = u64::from(offset_of(p)) + u64::from(further) + u64::from(n);
    match object_of(objects, p) {
        None => true,
        Some(o) => u64::from(o.size) < end,
    }
}

/// U10: the place is no multiple of the size.
#[tactic(auto, using(crate::proofs::Numbers::mod_zero))]
pub fn is_misaligned(p: &Value, further: u32, n: u32) -> bool
    ensures { result ≡ spec.is_misaligned p.now further n }
{
    let place = u64::from(offset_of(p)) + u64::from(further);
    if n == 0 {
        return place != 0;
    }
    place % u64::from(n) != 0
}

fn is_constant_kind(kind: Kind) -> bool
    ensures { result ≡ tests.is_constant kind }
{
    match kind {
        Kind::Const | Kind::Literal => true,
        Kind::Static | Kind::Auto | Kind::Heap => false,
    }
}

/// U11: a write to a constant object or a literal.
#[tactic(auto, using(crate::proofs::Facts::constant_so))]
pub fn is_constant(objects: &Store, p: &Value) -> bool
    ensures { result ≡ spec.is_constant objects.now.objects p.now }
{
    match object_of(objects, p) {
        None => false,
        Some(o) => is_constant_kind(o.kind),
    }
}

fn is_unwritten(c: &Cell) -> bool
    ensures { result ≡ spec.is_unwritten c.now }
{
    match &c.content {
        Content::Unwritten => true,
        Content::Byte(_) => false,
        Content::Piece(_, _) => false,
    }
}

fn is_fragment(c: &Cell) -> bool
    ensures { result ≡ spec.is_fragment c.now }
{
    match &c.content {
        Content::Unwritten => false,
        Content::Byte(_) => false,
        Content::Piece(_, _) => true,
    }
}

fn is_zero(c: &Cell) -> bool
    ensures { result ≡ spec.is_zero c.now }
{
    match &c.content {
        Content::Unwritten => false,
        Content::Byte(b) => *b == 0,
        Content::Piece(_, _) => false,
    }
}

/// U1: a byte that is read is unwritten.
pub fn reads_unwritten(cells: &[Cell]) -> bool
    ensures { result ≡ spec.reads_unwritten cells.now }
{
    cells.iter().any(|c| is_unwritten(c))
}

fn are_fragments(cells: &[Cell]) -> bool
    ensures { result ≡ spec.is_mixed false cells.now }
{
    cells.iter().any(|c| is_fragment(c))
}

fn are_zero(cells: &[Cell]) -> bool
    ensures { result ≡ list_all spec.is_zero cells.now }
{
    cells.iter().all(|c| is_zero(c))
}

/// U15: a number is read and a byte is a pointer's; or a pointer is read and the bytes are neither one pointer's pieces
/// in order nor all zero.
pub fn is_mixed(pointer: bool, cells: &[Cell]) -> bool
    ensures { result ≡ spec.is_mixed pointer cells.now }
{
    if !pointer {
        return are_fragments(cells);
    }
    !are_zero(cells) && is_no_pointer(cells)
}

fn is_no_pointer(cells: &[Cell]) -> bool
    ensures { result ≡ spec.is_none (value.pointer_of cells.now) }
{
    match pointer_of(cells) {
        None => true,
        Some(_) => false,
    }
}

fn is_piece(p: &Value, k: u32, c: &Cell) -> bool
    ensures { result ≡ value.is_piece p.now k c.now }
{
    match &c.content {
        Content::Unwritten => false,
        Content::Byte(_) => false,
        Content::Piece(q, j) => p.same(q) && *j == k,
    }
}

// The pointer whose four pieces the cells are in order.
fn pointer_of_four<'a>(a: &'a Cell, b: &Cell, c: &Cell, d: &Cell) -> Option<&'a Value>
    ensures { MatchOption result (value.pointer_of_four a.now b.now c.now d.now ≡ None) (λ v. value.pointer_of_four a.now b.now c.now d.now ≡ Some v.now) }
{
    match &a.content {
        Content::Unwritten => None,
        Content::Byte(_) => None,
        Content::Piece(p, k) => {
            if *k == 0 && is_piece(p, 1, b) && is_piece(p, 2, c) && is_piece(p, 3, d) {
                Some(p)
            } else {
                None
            }
        }
    }
}

/// The pointer whose pieces the bytes are.
pub fn pointer_of(cells: &[Cell]) -> Option<&Value>
    ensures { MatchOption result (value.pointer_of cells.now ≡ None) (λ v. value.pointer_of cells.now ≡ Some v.now) }
{
    match cells {
        [a, b, c, d] => pointer_of_four(a, b, c, d),
        _ => None,
    }
}

/// The bytes that an access reads, at most four.
pub fn cells_read(objects: &Store, p: &Value, further: u32, n: u32) -> Result<Few, NoMemory>
    ensures { IfOk result (λ cells. cells ≡ spec.cells_read objects.now.objects p.now further n) }
{
    match &p.shape {
        Shape::Number(_) => Ok(Few::none()),
        Shape::FunctionAt(_) => Ok(Few::none()),
        Shape::Pointer(o, i) => objects.few(*o, u64::from(*i) + u64::from(further), n),
    }
}

/// The rule that a load of `n` bytes breaks, at most four, `further` bytes from where a pointer points.
pub fn load_rule(
    objects: &Store,
    p: &Value,
    further: u32,
    n: u32,
    pointer: bool,
) -> Result<Option<Rule>, NoMemory>
    ensures { IfOk result (λ rule. rule ≡ spec.load_rule objects.now.objects p.now further n pointer) }
{
    if is_null(p) {
        return Ok(Some(Rule::U4));
    }
    if is_dead(objects, p) {
        return Ok(Some(Rule::U3));
    }
    if is_outside(objects, p, further, n) {
        return Ok(Some(Rule::U2));
    }
    if is_misaligned(p, further, n) {
        return Ok(Some(Rule::U10));
    }
    let cells = cells_read(objects, p, further, n)?;
    if reads_unwritten(cells.as_slice()) {
        return Ok(Some(Rule::U1));
    }
    if is_mixed(pointer, cells.as_slice()) {
        return Ok(Some(Rule::U15));
    }
    Ok(None)
}

/// The value of a scalar, where a load of it breaks no rule and its bytes are whole; perhaps `None` where they are.
#[inline(always)]
pub fn whole(
    objects: &Store,
    p: &Value,
    further: u32,
    n: u32,
    pointer: bool,
) -> Result<Option<Value>, NoMemory>
    ensures { IfOk result (λ got. IfSome got (λ v. (spec.load_rule objects.now.objects p.now further n pointer ≡ None) × (v ≡ value.value_of_cells (spec.cells_read objects.now.objects p.now further n)))) }
{
    match &p.shape {
        Shape::Number(_) => Ok(None),
        Shape::FunctionAt(_) => Ok(None),
        Shape::Pointer(o, i) => objects.fetch(*o, *i, further, n, pointer),
    }
}

/// The rule that a store of `n` bytes breaks.
pub fn store_rule(objects: &Store, p: &Value, further: u32, n: u32) -> Option<Rule>
    ensures { result ≡ spec.store_rule objects.now.objects p.now further n }
{
    if is_null(p) {
        return Some(Rule::U4);
    }
    if is_dead(objects, p) {
        return Some(Rule::U3);
    }
    if is_outside(objects, p, further, n) {
        return Some(Rule::U2);
    }
    if is_misaligned(p, further, n) {
        return Some(Rule::U10);
    }
    if is_constant(objects, p) {
        return Some(Rule::U11);
    }
    None
}

/// The rule of the range of a copy that is read.
pub fn reach_rule(objects: &Store, p: &Value, further: u32, n: u32) -> Option<Rule>
    ensures { result ≡ spec.reach_rule objects.now.objects p.now further n }
{
    if is_null(p) {
        return Some(Rule::U4);
    }
    if is_dead(objects, p) {
        return Some(Rule::U3);
    }
    if is_outside(objects, p, further, n) {
        return Some(Rule::U2);
    }
    None
}

/// The rule of the range of a copy that is written.
pub fn write_rule(objects: &Store, p: &Value, further: u32, n: u32) -> Option<Rule>
    ensures { result ≡ spec.write_rule objects.now.objects p.now further n }
{
    if is_null(p) {
        return Some(Rule::U4);
    }
    if is_dead(objects, p) {
        return Some(Rule::U3);
    }
    if is_outside(objects, p, further, n) {
        return Some(Rule::U2);
    }
    if is_constant(objects, p) {
        return Some(Rule::U11);
    }
    None
}

/// U15: a pointer is a number other than null.
pub fn is_number(p: &Value) -> bool
    ensures { result ≡ spec.is_number p.now }
{
    match &p.shape {
        Shape::Number(n) => *n != 0,
        Shape::FunctionAt(_) => false,
        Shape::Pointer(_, _) => false,
    }
}

/// U15: an operand of integer type is a pointer.
pub fn is_pointer(x: &Value) -> bool
    ensures { result ≡ spec.is_pointer x.now }
{
    match &x.shape {
        Shape::Number(_) => false,
        Shape::FunctionAt(_) => true,
        Shape::Pointer(_, _) => true,
    }
}

/// The bits of a number, 0 for what is none.
pub fn bits(v: &Value) -> u32
    ensures { result ≡ spec.bits v.now }
{
    match &v.shape {
        Shape::Number(n) => *n,
        Shape::FunctionAt(_) => 0,
        Shape::Pointer(_, _) => 0,
    }
}

// Where p + n points in its object, for elements of this size; `None` only outside of 64 bits.
fn target(p: &Value, n: i64, size: u32) -> Option<i64>
    ensures { IfSome result (λ at. at ≡ spec.target p.now n size) }
{
    let step = n.checked_mul(i64::from(size))?;
    i64::from(offset_of(p)).checked_add(step)
}

/// A place p + n: the offset, for elements of this size. `NoMemory` where it does not fit in 64 bits.
pub fn place_of(p: &Value, n: i64, size: u32) -> Result<i64, NoMemory>
    ensures { IfOk result (λ at. at ≡ spec.target p.now n size) }
{
    match target(p, n, size) {
        Some(at) => Ok(at),
        None => Err(NoMemory),
    }
}

fn is_beyond(size: u32, place: i64) -> bool
    ensures { result ≡ spec.is_beyond size place }
{
    place < 0 || i64::from(size) < place
}

/// U5: p + n is below its object or past its end, or n is not 0 and p is null.
pub fn leaves_object(objects: &Store, p: &Value, n: i64, at: i64, size: u32) -> bool
    requires { at ≡ spec.target p.now n size }
    ensures { result ≡ spec.leaves_object objects.now.objects p.now n size }
{
    if is_null(p) {
        return n < 0 || 0 < n;
    }
    match object_of(objects, p) {
        None => true,
        Some(o) => is_beyond(o.size, at),
    }
}

/// The rule that p + n breaks, where the integer has the value x.
pub fn shift_rule(objects: &Store, p: &Value, x: &Value, n: i64, at: i64, size: u32) -> Option<Rule>
    requires { at ≡ spec.target p.now n size }
    ensures { result ≡ spec.shift_rule objects.now.objects p.now x.now n size }
{
    if is_number(p) || is_pointer(x) {
        return Some(Rule::U15);
    }
    if is_dead(objects, p) {
        return Some(Rule::U3);
    }
    if leaves_object(objects, p, n, at, size) {
        return Some(Rule::U5);
    }
    None
}

/// U6: two pointers into different objects, or null and another.
pub fn are_unrelated(p: &Value, q: &Value) -> bool
    ensures { result ≡ spec.are_unrelated p.now q.now }
{
    match (&p.shape, &q.shape) {
        (Shape::Pointer(o, _), Shape::Pointer(r, _)) => *o != *r,
        (Shape::Number(_), Shape::Number(_)) => false,
        _ => true,
    }
}

/// How far one pointer's offset is above another's.
pub fn distance(p: &Value, q: &Value) -> i64
    ensures { result ≡ pos (spec.offset_of p.now) -ℤ pos (spec.offset_of q.now) }
{
    i64::from(offset_of(p)) - i64::from(offset_of(q))
}

/// U5: a difference that is no multiple of the size of the elements.
pub fn is_uneven(p: &Value, q: &Value, size: u32) -> bool
    requires { 0 < size }
    ensures { result ≡ spec.is_uneven p.now q.now size }
{
    let rest = distance(p, q) % i64::from(size);
    rest < 0 || 0 < rest
}

/// The rule that a difference of two pointers breaks.
pub fn difference_rule(objects: &Store, p: &Value, q: &Value, size: u32) -> Option<Rule>
    requires { 0 < size }
    ensures { result ≡ spec.difference_rule objects.now.objects p.now q.now size }
{
    if is_number(p) || is_number(q) {
        return Some(Rule::U15);
    }
    if is_dead(objects, p) || is_dead(objects, q) {
        return Some(Rule::U3);
    }
    if are_unrelated(p, q) {
        return Some(Rule::U6);
    }
    if is_uneven(p, q, size) {
        return Some(Rule::U5);
    }
    None
}

/// The rule that `==` or `!=` of two pointers breaks.
pub fn equality_rule(objects: &Store, p: &Value, q: &Value) -> Option<Rule>
    ensures { result ≡ spec.equality_rule objects.now.objects p.now q.now }
{
    if is_number(p) || is_number(q) {
        return Some(Rule::U15);
    }
    if is_dead(objects, p) || is_dead(objects, q) {
        return Some(Rule::U3);
    }
    None
}

/// The rule that `<`, `>`, `<=` or `>=` of two pointers breaks.
pub fn order_rule(objects: &Store, p: &Value, q: &Value) -> Option<Rule>
    ensures { result ≡ spec.order_rule objects.now.objects p.now q.now }
{
    if is_number(p) || is_number(q) {
        return Some(Rule::U15);
    }
    if is_dead(objects, p) || is_dead(objects, q) {
        return Some(Rule::U3);
    }
    if are_unrelated(p, q) {
        return Some(Rule::U6);
    }
    None
}

/// The rule that the truth test of a value of pointer type, or of integer type, breaks.
pub fn truth_rule(objects: &Store, pointer: bool, v: &Value) -> Option<Rule>
    ensures { result ≡ spec.truth_rule objects.now.objects pointer v.now }
{
    if pointer {
        if is_number(v) {
            return Some(Rule::U15);
        }
        if is_dead(objects, v) {
            return Some(Rule::U3);
        }
        return None;
    }
    if is_pointer(v) { Some(Rule::U15) } else { None }
}

fn is_heap(kind: Kind) -> bool
    ensures { result ≡ tests.is_heap kind }
{
    match kind {
        Kind::Heap => true,
        Kind::Static | Kind::Const | Kind::Literal | Kind::Auto => false,
    }
}

// Whether a place is the begin of a live allocated object.
fn is_block(object: Facts, place: u32) -> bool
    ensures { result ≡ (object.live && tests.is_heap object.kind && (place == 0)) }
{
    object.live && is_heap(object.kind) && place == 0
}

/// The rule that the freeing of a pointer breaks: it is not null, and not the start of a live allocated object.
pub fn free_rule(objects: &Store, p: &Value) -> Option<Rule>
    ensures { result ≡ spec.free_rule objects.now.objects p.now }
{
    if is_null(p) {
        return None;
    }
    match object_of(objects, p) {
        None => Some(Rule::U14),
        Some(o) => {
            if is_block(o, offset_of(p)) {
                None
            } else {
                Some(Rule::U14)
            }
        }
    }
}
