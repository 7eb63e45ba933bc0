// The commands by their first words.
ghost use Rattle.std.specs.Prelude.{◌≡◌};
ghost use Rattle.sc_words.specs.Commands.{verb_of};

#[derive(Clone, Copy)]
pub enum Verb {
    Load,
    Unload,
    Swap,
    Edit,
    Compile,
    Run,
    Stop,
    Delete,
    Step,
    Next,
    Cont,
    StepOne,
    Where,
    Print,
    List,
    Machine,
    Disas,
    Xref,
    Whatis,
    Eval,
    Report,
    Drop,
    Reset,
    Quit,
}

pub fn verb_of(word: &[u8]) -> Option<Verb>
    ensures { result ≡ verb_of word.now }
{
    if word == b"load".as_slice() {
        return Some(Verb::Load);
    }
    if word == b"unload".as_slice() {
        return Some(Verb::Unload);
    }
    if word == b"swap".as_slice() {
        return Some(Verb::Swap);
    }
    if word == b"edit".as_slice() {
        return Some(Verb::Edit);
    }
    if word == b"compile".as_slice() {
        return Some(Verb::Compile);
    }
    if word == b"run".as_slice() {
        return Some(Verb::Run);
    }
    if word == b"stop".as_slice() {
        return Some(Verb::Stop);
    }
    if word == b"delete".as_slice() {
        return Some(Verb::Delete);
    }
    if word == b"step".as_slice() {
        return Some(Verb::Step);
    }
    if word == b"next".as_slice() {
        return Some(Verb::Next);
    }
    if word == b"cont".as_slice() {
        return Some(Verb::Cont);
    }
    if word == b"stepi".as_slice() {
        return Some(Verb::StepOne);
    }
    if word == b"where".as_slice() {
        return Some(Verb::Where);
    }
    if word == b"print".as_slice() {
        return Some(Verb::Print);
    }
    if word == b"list".as_slice() {
        return Some(Verb::List);
    }
    if word == b"machine".as_slice() {
        return Some(Verb::Machine);
    }
    if word == b"disas".as_slice() {
        return Some(Verb::Disas);
    }
    if word == b"xref".as_slice() {
        return Some(Verb::Xref);
    }
    if word == b"whatis".as_slice() {
        return Some(Verb::Whatis);
    }
    if word == b"eval".as_slice() {
        return Some(Verb::Eval);
    }
    if word == b"report".as_slice() {
        return Some(Verb::Report);
    }
    if word == b"drop".as_slice() {
        return Some(Verb::Drop);
    }
    if word == b"reset".as_slice() {
        return Some(Verb::Reset);
    }
    if word == b"quit".as_slice() {
        return Some(Verb::Quit);
    }
    None
}
