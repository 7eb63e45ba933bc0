// The options, as `clap` reads and explains them.
ghost use Rattle.std.specs.Prelude.{◌≡◌, true, false, IfOk, IfErr, map, string_bytes};
ghost use Rattle.clap.specs.Words.{app_of, kind_of, rows_of, found_of, rule_of};
ghost use Rattle.sc_words.specs.CommandLine.{option_rule, flag_rule, with_options, saber, takes_words, rows_in, IsFound};
ghost use Rattle.sc_words.specs.Options.{is_listed, all, given};

use clap::error::ErrorKind;
use clap::{Arg, ArgAction, ArgMatches, Command, Error};
use sc_base::NoMemory;
use std::alloc::{AllocError, Global};

const ABOUT: &str = "Runs C programs module by module, and checks each step.";

const COMMANDS: &str = "Commands, one on each line of the standard input:
  load M          translates M.c, and adds it
  unload M        takes the module away
  swap M source   interprets the module
  swap M object   runs the module as its object in M.o
  swap M fast     runs the module as its faster object in M.fast.o
  edit M [FILE]   puts the text of FILE, or of M.c, in the module's place
  compile M       writes the object of the module to M.o
  compile M fast  writes the faster object of the module to M.fast.o
  run [FILE]      runs main, with the bytes of FILE as input
  stop in F       stops at the entry of a function; F is NAME or M:NAME
  stop at M:N     stops at a line
  delete K        takes a stop away
  step            goes on to the next line
  next            goes on to the next line of this function or of one further out
  cont            goes on to the next stop
  stepi           carries out one instruction of a compiled function
  where           shows the active functions, from the innermost
  print NAME      shows a value
  list            shows modules, functions, stops and the state
  machine         shows the registers, and how many instructions were carried out
  disas F         shows the instructions of a compiled function; F is NAME or M:NAME
  xref NAME       shows every place of a name of file scope
  whatis NAME     shows the type of a name of file scope in each module
  eval M E        shows the value of an expression in the terms of a module
  report K        shows what a probe tells
  drop K          takes a probe away
  reset           gives the run up
  quit            ends
A line that begins with # has no answer.";

fn option_named<'a>(alloc: Global, name: &'a str, help: &'a str) -> Arg<'a>
    ensures rule { rule_of result ≡ option_rule name.entry.now }
    ensures global { result.global ≡ false }
{
    Arg::new(alloc, name)
        .long(name)
        .help(help)
        .action(ArgAction::Set)
}

fn flag_named<'a>(alloc: Global, name: &'a str, help: &'a str) -> Arg<'a>
    ensures rule { rule_of result ≡ flag_rule name.entry.now }
    ensures global { result.global ≡ false }
{
    Arg::new(alloc, name)
        .long(name)
        .help(help)
        .action(ArgAction::SetTrue)
}

// The command with the options that have values.
fn with_options<'a>(alloc: Global) -> Result<Command<'a>, AllocError>
    ensures { IfOk result (λ command. app_of command ≡ with_options) }
{
    let stack = option_named(alloc, "stack", "bytes of the stack [default: 1048576]");
    let heap = option_named(alloc, "heap", "bytes of the heap [default: 4194304]");
    let turns = option_named(alloc, "turns", "turns of each go [default: 50000000]");
    let dir = option_named(alloc, "dir", "the folder of the files [default: .]");
    let make = option_named(
        alloc,
        "make",
        "runs so many made modules, 1 to 64, and tells their sizes",
    );
    let command = Command::new(alloc, "saber")
        .no_binary_name(true)
        .disable_help_flag(true);
    command
        .arg(stack)?
        .arg(heap)?
        .arg(turns)?
        .arg(dir)?
        .arg(make)
}

fn command<'a>(alloc: Global) -> Result<Command<'a>, AllocError>
    ensures { IfOk result (λ command. app_of command ≡ saber) }
{
    let trace = flag_named(alloc, "trace", "adds a probe that keeps the notes of runs");
    let coverage = flag_named(
        alloc,
        "coverage",
        "adds a probe that counts how often each line was reached",
    );
    let count = flag_named(
        alloc,
        "count",
        "adds a probe that counts the notes of runs by kind",
    );
    let command = with_options(alloc)?;
    command.arg(trace)?.arg(coverage)?.arg(count)
}

/// What the options mean, and the commands, for `--help`.
pub fn help_text(alloc: Global) -> Result<String, NoMemory> {
    let mut command = command(alloc)?.about(ABOUT).after_help(COMMANDS);
    let text = command.render_help()?;
    Ok(text)
}

// What `clap` reads in the words.
fn parsed<'a>(alloc: Global, words: &'a [String]) -> Result<ArgMatches<'a>, Error>
    ensures rows { IfOk result (λ matches. rows_of (found_of matches) ≡ rows_in (map string_bytes words.entry.now)) }
    ensures passes { takes_words (map string_bytes words.entry.now) ≡ true → IfErr result (λ e. kind_of e ≡ ErrorKind.OutOfMemory) }
{
    let command = command(alloc)?;
    command.try_get_matches_from(words)
}

/// What was found for the options: the values of five, and whether each of the three flags is given.
#[derive(Clone, Copy)]
pub struct Found<'a> {
    pub stack: Option<&'a str>,
    pub heap: Option<&'a str>,
    pub turns: Option<&'a str>,
    pub dir: Option<&'a str>,
    pub make: Option<&'a str>,
    pub trace: bool,
    pub coverage: bool,
    pub count: bool,
}

/// What is found for the options in words that are in the language. Only memory fails.
pub fn found_in<'a>(alloc: Global, words: &'a [String]) -> Result<Found<'a>, Error>
    requires { is_listed all (given (map string_bytes words.now)) ≡ true }
    ensures found { IfOk result (λ found. IsFound found (given (map string_bytes words.entry.now))) }
    ensures memory { IfErr result (λ e. kind_of e ≡ ErrorKind.OutOfMemory) }
{
    match parsed(alloc, words) {
        Ok(matches) => Ok(Found {
            stack: matches.get_str("stack"),
            heap: matches.get_str("heap"),
            turns: matches.get_str("turns"),
            dir: matches.get_str("dir"),
            make: matches.get_str("make"),
            trace: matches.get_flag("trace"),
            coverage: matches.get_flag("coverage"),
            count: matches.get_flag("count"),
        }),
        Err(error) => Err(error),
    }
}
