// Tokens are split into lines.
ghost use Rattle.std.specs.Prelude.{◌≡◌, ◌++◌, [], OnOk, IfOk};
ghost use Rattle.sc_pp.specs.Lines as spec;

use crate::line::{Line, begins_directive, directive_line, text};
use sc_base::{Duplicate, Items, NoMemory, Refusal, Stack};
use sc_lex::{Scan, Token, is_too_long, refusal_in};
use sc_macro::is_newline;
use std::alloc::Global;
use std::mem;

/// The lines so far, the text since the last directive, and the tokens of the line that is read.
#[derive(Drop)]
pub struct Splitter {
    pub lines: Stack<Line>,
    pub run: Items<Token>,
    pub line: Items<Token>,
}

/// Ends a line that the lexer takes.
fn end_whole(alloc: Global, splitter: &mut Splitter) -> Result<(), NoMemory>
    ensures { OnOk result (splitter.new ≡ spec.ended_whole splitter.old) }
{
    let line = mem::replace(&mut splitter.line, Items::new(alloc));
    if begins_directive(line.as_slice()) {
        let run = mem::replace(&mut splitter.run, Items::new(alloc));
        splitter.lines.push(text(run))?;
        splitter
            .lines
            .push(directive_line(alloc, line.as_slice())?)?;
        Ok(())
    } else {
        splitter.run.append(line)?;
        Ok(())
    }
}

/// Puts the tokens before the first identifier that is too long behind others.
fn append_front(alloc: Global, run: &mut Items<Token>, line: &[Token]) -> Result<(), NoMemory>
    ensures { OnOk result (run.new ≡ run.old ++ spec.front line.now) }
{
    for token in line {
        if is_too_long(token) {
            return Ok(());
        }
        run.push(token.copy(alloc)?)?;
    }
    Ok(())
}

/// Ends a line that the lexer refuses at some place.
fn end_broken(alloc: Global, splitter: &mut Splitter, refusal: Refusal) -> Result<(), NoMemory>
    ensures { OnOk result (splitter.new ≡ spec.ended_broken refusal splitter.old) }
{
    let line = mem::replace(&mut splitter.line, Items::new(alloc));
    let mut run = mem::replace(&mut splitter.run, Items::new(alloc));
    if begins_directive(line.as_slice()) {
        splitter.lines.push(text(run))?;
        splitter.lines.push(Line::Broken(refusal))?;
        splitter
            .lines
            .push(directive_line(alloc, line.as_slice())?)?;
        Ok(())
    } else {
        append_front(alloc, &mut run, line.as_slice())?;
        splitter.lines.push(text(run))?;
        splitter.lines.push(Line::Broken(refusal))?;
        Ok(())
    }
}

/// Ends the line that is read, behind which a comment may be open that begins on some line.
fn end_line(alloc: Global, splitter: &mut Splitter, unclosed: Option<u32>) -> Result<(), NoMemory>
    ensures { OnOk result (splitter.new ≡ spec.end_line unclosed splitter.old) }
{
    match refusal_in(alloc, splitter.line.as_slice(), unclosed)? {
        None => end_whole(alloc, splitter),
        Some(refusal) => end_broken(alloc, splitter, refusal),
    }
}

fn take(alloc: Global, splitter: &mut Splitter, token: Token) -> Result<(), NoMemory>
    ensures { OnOk result (splitter.new ≡ spec.taken splitter.old token) }
{
    if is_newline(&token) {
        end_line(alloc, splitter, None)?;
        splitter.run.push(token)?;
        Ok(())
    } else {
        splitter.line.push(token)?;
        Ok(())
    }
}

fn split(alloc: Global, tokens: Items<Token>) -> Result<Splitter, NoMemory>
    ensures { IfOk result (λ s. s ≡ spec.split spec.start tokens) }
{
    let mut splitter = Splitter {
        lines: Stack::new(alloc),
        run: Items::new(alloc),
        line: Items::new(alloc),
    };
    let mut rest = Stack::new(alloc);
    rest.push_all(tokens)?;
    'tokens: while let Some(token) = rest.pop() {
        take(alloc, &mut splitter, token)?;
    }
    Ok(splitter)
}

/// The lines of a file that was cut so, the last on top. What the lexer refuses stands at its place among them.
pub fn lines_of(alloc: Global, whole: Scan) -> Result<Stack<Line>, NoMemory>
    ensures { IfOk result (λ lines. lines ≡ spec.lines_of whole) }
{
    let Scan { tokens, unclosed } = whole;
    let mut splitter = split(alloc, tokens)?;
    end_line(alloc, &mut splitter, unclosed)?;
    let Splitter { mut lines, run, .. } = splitter;
    lines.push(text(run))?;
    Ok(lines)
}
