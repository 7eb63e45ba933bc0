// What the short words of answers mean, for `--help`.

pub const EXPLAINED: &str = "
Refusals, as `> refused C8 m.c`. A refused command leaves the session as it was.
  C1    the first word is no command
  C2    the further words are not those of the command, or the line has more than 1024 bytes
  C3    there is no such module
  C4    there is such a module already
  C5    the text of the file is refused; the kind X, the file and the line follow
  C6    another module, which is named, defines the same external name
  C7    another module, which is named, declares the external name with another type
  C8    there is no such file
  C9    the object's file is not the module's object; the offset follows at which they differ
  C10   a run has stopped or paused: end it, or forget it by reset
  C11   nothing runs
  C12   the run is not at a stop: it has paused or ended
  C13   no module defines main
  C14   too many modules, functions (stubs), bytes of compiled code (text) or of static objects
  C15   reading or writing the file failed
  C16   the name stands for no object here
  C17   there is no such probe
  C18   there is no such stop
  C19   the file has more than 8388608 bytes
  C20   the innermost active call is not one of a module that runs as its object
  C21   no module that runs as its object defines the function
  C22   no module declares the name at file scope
`> no memory` may answer any command.

Kinds of refused texts, as `> refused C5 X6 m.c:3`. docs/LANGUAGE.md has the rules.
  X1    a comment is not closed
  X2    a directive is wrong, unknown or unbalanced, or it is #error
  X3    a macro is called with a wrong number of arguments, is not closed, or is defined otherwise before
  X4    an included file is neither in the folder nor a header of the library
  X5    the tokens are not in the grammar
  X6    a name has no declaration in scope
  X7    a rule of types is broken
  X8    a constant is wanted and is not there
  X9    the construct is left out of the language; its word follows
  X10   a limit is passed; its word follows

Undefined steps, as `> violation U2 in f at m:7 object 3 offset 4 size 4`. docs/VIOLATIONS.md has a program for each.
  U1    a byte that is read was never written
  U2    the bytes are not inside the object
  U3    the object is dead
  U4    access through null
  U5    a pointer leaves its object
  U6    pointers into different objects are ordered or subtracted
  U7    a signed result is out of range
  U8    the divisor is zero
  U9    a shift by less than 0 or more than 31
  U10   an access at an offset that is no multiple of its size
  U11   a write to a constant object or a string literal
  U12   a call of what is no function, or of a function of another type
  U13   the value of a call that gave none is used
  U14   what is freed is no live block of the heap
  U15   the bytes of a pointer are read as a number, or those of a number as a pointer
  U16   an argument of a library function is out of its range
  U17   no module defines what is used
  U18   source and target overlap

Causes for which compiled code cannot go on, as `> crashed at 00010000 cause 5`. The address is that of the instruction.
  1     there is no instruction at the address
  2     the address is no multiple of 4
  3     the word at the address is no instruction
  4     a load or store at no multiple of its size
  5     a load or store outside of the memory
  6     a service is called that cannot be given
";
