// What is open around the place that is read.

use crate::operand::{Direct, Mode, Operand, Whole};
use sc_base::{Bytes, Items, Name, Shared, Stack};
use sc_tree::{
    Binary, Declarator, Derivation, Enumerator, Expr, Identifier, Member, Parameter, Specifiers,
    TypeName, Unary,
};

/// A production that is open, with the line of its first token and the parts that were read.
#[derive(Drop)]
pub enum Frame {
    /// Nothing but an expression of this level at least, which ends at a token that does not go on with it.
    Only(u8),
    /// Nothing but the specifiers, or a declarator, of a declaration.
    Outer,
    Paren(u32),
    Index(Operand),
    /// The function, the arguments and the height of the highest.
    Arguments(Operand, Items<Shared<Expr>>, u8),
    Unary(u32, Unary),
    SizeOf(u32),
    Cast(u32, Shared<TypeName>),
    Binary(Operand, Binary),
    /// Behind `?`.
    Then(Operand),
    /// Behind `:`.
    Else(Operand, Operand),
    Assign(Operand, Option<Binary>),
    Comma(Operand),
    /// The type of a cast.
    CastType(u32),
    /// The type that `sizeof` takes.
    SizeType(u32),
    /// The type that `__offsetof` takes.
    OffsetType(u32),
    /// Specifiers whose declarator is read.
    Specifiers(Specifiers),
    /// The braces of a structure or, where it is true, of a union: the specifiers before it, the line of `struct` or
    /// `union`, the tag and the members.
    Struct(Specifiers, u32, bool, Option<Name>, Items<Member>),
    /// The specifiers of a member, and the declarators so far.
    Member(Specifiers, Items<Declarator>),
    /// The braces of an enumeration: the specifiers before it, the line of `enum`, the tag and the items.
    Enum(Specifiers, u32, Option<Name>, Items<Enumerator>),
    /// The value of an enumeration constant.
    Item(Identifier),
    /// A declarator or one in parentheses: the line of its first token, and its stars from the last, whether each is
    /// `const`.
    Level(Mode, u32, Stack<bool>),
    /// The size of an array.
    Size(Direct),
    Parameters(Direct, Items<Parameter>),
}

/// What was read last.
#[derive(Drop)]
pub enum State {
    /// An operand is due.
    Need,
    /// `(` was read where an operand is due.
    Opened(u32),
    /// `sizeof` was read.
    Sized(u32),
    /// `sizeof (` was read: the lines of both.
    SizedOpened(u32, u32),
    /// An operand.
    Have(Operand),
    /// Strings that stand side by side.
    Texts(u32, Option<Bytes>),
    /// An operand and `.`.
    Dot(Operand),
    /// An operand and `->`.
    Arrow(Operand),
    /// `__offsetof ( type ,` was read.
    OffsetComma(u32, Shared<TypeName>),
    /// The same, and a name.
    OffsetName(u32, Shared<TypeName>, Name),
    /// Specifiers are due.
    Due,
    /// Words of a list of specifiers.
    Words(Specifiers),
    /// `void` was read where parameters begin.
    Void(u32),
    /// Specifiers, and `struct` with its line, or `union` where it is true.
    Struct(Specifiers, u32, bool),
    /// The same, and a tag.
    StructTag(Specifiers, u32, bool, Name),
    /// Specifiers, and `enum` with its line.
    Enum(Specifiers, u32),
    /// The same, and a tag.
    EnumTag(Specifiers, u32, Name),
    /// An item of an enumeration is due.
    Items,
    /// The name of an item was read.
    Item(Identifier),
    /// A declarator is due.
    Begin(Mode),
    /// Stars of a declarator that begins on this line, from the last: whether each is `const`.
    Stars(Mode, u32, Stack<bool>),
    /// The same, and `(`.
    Group(Mode, u32, Stack<bool>),
    /// The name of a declarator and what it is so far.
    Direct(Direct),
    /// The same, and `[`.
    Bracket(Direct),
    /// An item ended, and with it maybe the enumeration: its name is to be declared.
    ItemEnd(Enumerator, bool),
    /// A parameter ended, and with it maybe the list: its name is to be declared.
    ParameterEnd(Specifiers, Option<Whole>, bool),
    /// The parameters ended, and are this step of the declarator.
    ParametersEnd(Derivation),
    /// The expression ended before the token.
    Expression(Operand),
    /// The specifiers ended before the token.
    Specified(Specifiers),
    /// The declarator ended before the token.
    Declared(Whole),
}
