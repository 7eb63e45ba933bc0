// The words of a report.
ghost use Rattle.std.specs.Prelude.{◌≡◌, ◌++◌, IfOk, OnOk, decimal};
ghost use Rattle.std.specs.Fmt.{signed_decimal};
ghost use Rattle.sc_session_texts.specs.Words as spec;

use sc_base::{Key, NoMemory, Rule};
use std::alloc::Global;

/// The name of a rule.
pub fn rule_text(rule: Rule) -> &'static [u8]
    ensures { result.now ≡ spec.rule_text rule }
{
    match rule {
        Rule::U1 => b"U1",
        Rule::U2 => b"U2",
        Rule::U3 => b"U3",
        Rule::U4 => b"U4",
        Rule::U5 => b"U5",
        Rule::U6 => b"U6",
        Rule::U7 => b"U7",
        Rule::U8 => b"U8",
        Rule::U9 => b"U9",
        Rule::U10 => b"U10",
        Rule::U11 => b"U11",
        Rule::U12 => b"U12",
        Rule::U13 => b"U13",
        Rule::U14 => b"U14",
        Rule::U15 => b"U15",
        Rule::U16 => b"U16",
        Rule::U17 => b"U17",
        Rule::U18 => b"U18",
    }
}

/// Puts bytes behind a text.
pub fn put(text: &mut Vec<u8>, bytes: &[u8]) -> Result<(), NoMemory>
    ensures { OnOk result (text.new.items ≡ text.old.items ++ bytes.now) }
{
    text.extend_from_slice(bytes)?;
    Ok(())
}

/// Puts a number behind a text, in decimal.
pub fn put_decimal(text: &mut Vec<u8>, alloc: Global, n: u32) -> Result<(), NoMemory>
    ensures { OnOk result (text.new.items ≡ text.old.items ++ decimal n) }
{
    let digits = n.to_string(alloc)?;
    put(text, digits.as_bytes())
}

/// Puts a number that may be negative behind a text, in decimal.
pub fn put_signed(text: &mut Vec<u8>, alloc: Global, n: i64) -> Result<(), NoMemory>
    ensures { OnOk result (text.new.items ≡ text.old.items ++ signed_decimal n) }
{
    let digits = n.to_string(alloc)?;
    put(text, digits.as_bytes())
}

/// A key: its name, behind its module where its linkage is internal.
pub fn key_text(alloc: Global, key: &Key) -> Result<Vec<u8>, NoMemory>
    ensures { IfOk result (λ text. text.items ≡ spec.key_text key.now) }
{
    let mut text = Vec::new(alloc);
    if let Some(home) = &key.module {
        put(&mut text, home.as_slice())?;
        put(&mut text, b":")?;
    }
    put(&mut text, key.name.as_slice())?;
    Ok(text)
}

/// Puts a key behind a text.
pub fn put_key(text: &mut Vec<u8>, alloc: Global, key: &Key) -> Result<(), NoMemory>
    ensures { OnOk result (text.new.items ≡ text.old.items ++ spec.key_text key.now) }
{
    let key = key_text(alloc, key)?;
    put(text, key.as_slice())
}
