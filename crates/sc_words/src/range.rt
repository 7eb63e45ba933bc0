// The numbers that options take.
ghost use Rattle.std.specs.Prelude.{◌≡◌, ◌≤◌, ◌<◌, IfSome};
ghost use Rattle.sc_words.specs.Options.{number_in, stack_range, heap_range, turns_range, make_range};

use crate::part::{is_numeral, number_of};

// The numbers from one to another that are multiples of a third.
#[derive(Clone, Copy)]
pub struct Range {
    pub low: u64,
    pub high: u64,
    pub unit: u64,
}

fn number_in(range: Range, value: &[u8]) -> Option<u64>
    requires { 0 < range.unit }
    ensures number { result ≡ number_in range value.now }
    ensures high { IfSome result (λ number. number ≤ range.high) }
{
    if !is_numeral(10, value) {
        return None;
    }
    let number = number_of(value);
    if range.low <= number && number <= range.high && number % range.unit == 0 {
        Some(number)
    } else {
        None
    }
}

/// The bytes of a stack.
pub fn stack_in(value: &[u8]) -> Option<u32>
    ensures { result ≡ number_in stack_range value.now }
{
    let range = Range {
        low: 4096,
        high: 16777216,
        unit: 16,
    };
    match number_in(range, value) {
        Some(number) => Some(number as u32),
        None => None,
    }
}

/// The bytes of a heap.
pub fn heap_in(value: &[u8]) -> Option<u32>
    ensures { result ≡ number_in heap_range value.now }
{
    let range = Range {
        low: 0,
        high: 67108864,
        unit: 16,
    };
    match number_in(range, value) {
        Some(number) => Some(number as u32),
        None => None,
    }
}

/// The turns of a go.
pub fn turns_in(value: &[u8]) -> Option<u64>
    ensures { result ≡ number_in turns_range value.now }
{
    let range = Range {
        low: 1,
        high: 1000000000,
        unit: 1,
    };
    number_in(range, value)
}

/// The modules that are made.
pub fn make_in(value: &[u8]) -> Option<u32>
    ensures { result ≡ number_in make_range value.now }
{
    let range = Range {
        low: 1,
        high: 64,
        unit: 1,
    };
    match number_in(range, value) {
        Some(number) => Some(number as u32),
        None => None,
    }
}
