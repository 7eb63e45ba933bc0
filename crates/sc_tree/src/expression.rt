// Expressions, and the types and declarators that stand in them. Each `line` is that of the construct's first token.
ghost use Rattle.std.specs.Prelude.{◌≡◌};
ghost use Rattle.sc_tree.specs.Storages as spec;

use crate::operator::{Binary, Postfix, Unary};
use sc_base::{Bytes, Int, Items, Name, Shared};

/// The value of an integer or character constant, and its type (ANSI 3.1.3.2, 3.1.3.4).
#[derive(Clone, Copy, Debug, PartialEq, Eq)]
pub struct Constant {
    pub value: u32,
    pub of: Int,
}

/// A name that is declared, with its own line.
#[derive(Drop)]
pub struct Identifier {
    pub line: u32,
    pub name: Name,
}

/// A storage class (ANSI 3.5.1).
#[derive(Clone, Copy, Debug, PartialEq, Eq)]
pub enum Storage {
    Typedef,
    Extern,
    Static,
    Auto,
    Register,
}

/// Whether a declaration with this storage class names types (ANSI 3.5.6).
pub fn is_typedef(class: Option<Storage>) -> bool
    ensures { result ≡ spec.is_typedef class }
{
    match class {
        Some(Storage::Typedef) => true,
        _ => false,
    }
}

/// An expression (ANSI 3.3), each with its line. Parentheses are none.
#[cycle(tree)]
#[derive(Drop)]
pub enum Expr {
    Name(u32, Name),
    /// A number or a character; `None` where no type holds the value (ANSI 3.1.3).
    Constant(u32, Option<Constant>),
    /// The bytes of the joined strings without the zero byte behind them; `None` where an escape is above 255.
    String(u32, Option<Bytes>),
    /// `__offsetof(type, member)`.
    OffsetOf(u32, Shared<TypeName>, Name),
    /// `array[place]` (3.3.2.1).
    Index(u32, Shared<Expr>, Shared<Expr>),
    /// The function and the arguments (3.3.2.2).
    Call(u32, Shared<Expr>, Items<Shared<Expr>>),
    /// `structure.member`, also of a union (3.3.2.3).
    Member(u32, Shared<Expr>, Name),
    /// `pointer->member`, also of a union (3.3.2.3).
    Arrow(u32, Shared<Expr>, Name),
    Postfix(u32, Postfix, Shared<Expr>),
    Unary(u32, Unary, Shared<Expr>),
    /// `sizeof expression` (3.3.3.4).
    SizeOf(u32, Shared<Expr>),
    /// `sizeof (type)` (3.3.3.4).
    SizeOfType(u32, Shared<TypeName>),
    /// `(type)operand` (3.3.4).
    Cast(u32, Shared<TypeName>, Shared<Expr>),
    Binary(u32, Binary, Shared<Expr>, Shared<Expr>),
    /// `condition ? first : second` (3.3.15).
    Conditional(u32, Shared<Expr>, Shared<Expr>, Shared<Expr>),
    /// Target and value; the operator is `None` for `=` (3.3.16).
    Assign(u32, Option<Binary>, Shared<Expr>, Shared<Expr>),
    /// `first, second` (3.3.17).
    Comma(u32, Shared<Expr>, Shared<Expr>),
}

/// A type name (ANSI 3.5.5): specifiers, and a declarator without a name where one is written.
#[cycle(tree)]
#[derive(Drop)]
pub struct TypeName {
    pub line: u32,
    pub specifiers: Specifiers,
    pub declarator: Option<Declarator>,
}

/// A list of specifiers (ANSI 3.5): the storage class, whether `const` is there, and the type words in order.
#[derive(Drop)]
pub struct Specifiers<W = TypeWord> {
    pub line: u32,
    pub storage: Option<Storage>,
    pub constant: bool,
    pub words: Items<W>,
}

/// A type word (ANSI 3.5.2).
#[cycle(tree)]
#[derive(Drop)]
pub enum TypeWord {
    Void,
    Char,
    Short,
    Int,
    Long,
    Signed,
    Unsigned,
    /// `struct name`, or `union name` where it is true (3.5.2.3).
    StructTag(u32, bool, Name),
    /// `struct name { .. }`, or `union name { .. }` where it is true, with at least one member (3.5.2.1).
    Struct(u32, bool, Option<Name>, Items<Member>),
    /// `enum name` (3.5.2.3).
    EnumTag(u32, Name),
    /// `enum name { .. }`, with at least one item (3.5.2.2).
    Enum(u32, Option<Name>, Items<Enumerator>),
    /// A name that a typedef declares (3.5.6).
    Typedef(u32, Name),
}

/// The members of a structure or union that one list of specifiers declares, at least one (ANSI 3.5.2.1).
#[cycle(tree)]
#[derive(Drop)]
pub struct Member {
    pub line: u32,
    pub specifiers: Specifiers,
    pub declarators: Items<Declarator>,
}

/// An enumeration constant, with its value where one is written (ANSI 3.5.2.2).
#[derive(Drop)]
pub struct Enumerator<E = Shared<Expr>> {
    pub line: u32,
    pub name: Name,
    pub value: Option<E>,
}

/// A declarator (ANSI 3.5.4): its name, which an abstract one lacks, and what the name is, from the name outwards.
/// `*a[2]` is an array of pointers.
#[cycle(tree)]
#[derive(Drop)]
pub struct Declarator {
    pub line: u32,
    pub identifier: Option<Identifier>,
    pub derivations: Items<Derivation>,
}

/// One step of a declarator (ANSI 3.5.4.1 to 3.5.4.3).
#[cycle(tree)]
#[derive(Drop)]
pub enum Derivation {
    /// A pointer, and whether it is `const`.
    Pointer(bool),
    /// An array, with its size where one is written.
    Array(Option<Shared<Expr>>),
    /// A function `()`.
    Function,
    /// A function with these parameters, none for `(void)`.
    Prototype(Items<Parameter>),
}

/// A parameter (ANSI 3.5.4.3); its declarator may lack a name, or be left out.
#[cycle(tree)]
#[derive(Drop)]
pub struct Parameter {
    pub line: u32,
    pub specifiers: Specifiers,
    pub declarator: Option<Declarator>,
}
