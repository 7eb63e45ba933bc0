// Tags and literals, one after another.
use sc_base::{Bytes, Name};
use sc_check_scope::{
    CheckFault, Problem, State, enumeration_named, open_enumeration, string, structure_named,
};
use std::alloc::Global;
use std::test::Fail;

fn named(alloc: Global, text: &[u8]) -> Result<Name, CheckFault> {
    match Name::new(alloc, text) {
        Ok(name) => Ok(name),
        Err(_) => Err(CheckFault::NoMemory),
    }
}

fn tags(alloc: Global) -> Result<(usize, bool), CheckFault> {
    let mut st = State::new(alloc);
    let s = named(alloc, b"s")?;
    structure_named(alloc, &mut st, 1, false, &s)?;
    structure_named(alloc, &mut st, 2, false, &s)?;
    let wrong = enumeration_named(&st, 3, &s).is_err();
    Ok((st.structs.as_slice().len(), wrong))
}

#[test]
fn a_tag_names_one_structure(rt: HostRuntime) {
    assert_eq!(rt; tags(rt.alloc()), Ok((1, true)));
}
