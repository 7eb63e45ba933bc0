// Keywords (ANSI 3.1.1).
ghost use Rattle.std.specs.Prelude.{◌≡◌};
ghost use Rattle.sc_parse_tokens.specs.Words as spec;

use sc_parse_names::{Kind, Mark};
use sc_tree::Storage;

/// The keywords of constructs that are left out; what is no keyword is a name.
fn left_out_word(text: &[u8]) -> Kind
    ensures { result ≡ spec.left_out_word text.now }
{
    if text == b"float".as_slice() {
        Kind::LeftOut(Mark::Float)
    } else if text == b"double".as_slice() {
        Kind::LeftOut(Mark::Float)
    } else if text == b"volatile".as_slice() {
        Kind::LeftOut(Mark::Volatile)
    } else {
        Kind::Name
    }
}

/// The keywords of jumps and labels.
fn jump_word(text: &[u8]) -> Kind
    ensures { result ≡ spec.jump_word text.now }
{
    if text == b"break".as_slice() {
        Kind::Break
    } else if text == b"case".as_slice() {
        Kind::Case
    } else if text == b"continue".as_slice() {
        Kind::Continue
    } else if text == b"default".as_slice() {
        Kind::Default
    } else if text == b"goto".as_slice() {
        Kind::Goto
    } else if text == b"return".as_slice() {
        Kind::Return
    } else if text == b"sizeof".as_slice() {
        Kind::Sizeof
    } else {
        left_out_word(text)
    }
}

/// The keywords of the other statements.
fn control_word(text: &[u8]) -> Kind
    ensures { result ≡ spec.control_word text.now }
{
    if text == b"do".as_slice() {
        Kind::Do
    } else if text == b"else".as_slice() {
        Kind::Else
    } else if text == b"for".as_slice() {
        Kind::For
    } else if text == b"if".as_slice() {
        Kind::If
    } else if text == b"switch".as_slice() {
        Kind::Switch
    } else if text == b"while".as_slice() {
        Kind::While
    } else {
        jump_word(text)
    }
}

/// The keywords of storage classes, and `const`.
fn storage_word(text: &[u8]) -> Kind
    ensures { result ≡ spec.storage_word text.now }
{
    if text == b"auto".as_slice() {
        Kind::Storage(Storage::Auto)
    } else if text == b"extern".as_slice() {
        Kind::Storage(Storage::Extern)
    } else if text == b"register".as_slice() {
        Kind::Storage(Storage::Register)
    } else if text == b"static".as_slice() {
        Kind::Storage(Storage::Static)
    } else if text == b"typedef".as_slice() {
        Kind::Storage(Storage::Typedef)
    } else if text == b"const".as_slice() {
        Kind::Const
    } else {
        control_word(text)
    }
}

/// The keywords of types.
fn type_word(text: &[u8]) -> Kind
    ensures { result ≡ spec.type_word text.now }
{
    if text == b"char".as_slice() {
        Kind::Char
    } else if text == b"short".as_slice() {
        Kind::Short
    } else if text == b"signed".as_slice() {
        Kind::Signed
    } else if text == b"unsigned".as_slice() {
        Kind::Unsigned
    } else if text == b"struct".as_slice() {
        Kind::Struct(false)
    } else if text == b"union".as_slice() {
        Kind::Struct(true)
    } else if text == b"enum".as_slice() {
        Kind::Enum
    } else {
        storage_word(text)
    }
}

/// What an identifier is (ANSI 3.1.1).
pub fn word(text: &[u8]) -> Kind
    ensures { result ≡ spec.word text.now }
{
    if text == b"int".as_slice() {
        Kind::Int
    } else if text == b"void".as_slice() {
        Kind::Void
    } else if text == b"long".as_slice() {
        Kind::Long
    } else {
        type_word(text)
    }
}
