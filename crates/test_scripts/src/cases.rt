//! The cases of a folder, in the order of their names. A file `NAME.script` is a script, and each line of a file
//! `NAME.scripts` is one; `NAME.list` and `NAME.lists` are the same for lists of segments.
use crate::form::{Form, Kind, form_of_ending};
use kit_commands::{ToolError, replay, show};
use kit_io::Counted;
use std::alloc::Global;
use std::rt::{Env, Files};
use std::{env, fs, io};

/// The form that the file of a name has.
fn form_of(name: &str) -> Option<Form> {
    let (_, ending) = name.rsplit_once('.')?;
    form_of_ending(ending)
}

/// The names of a folder's files, in their order.
fn names_in(
    rt: &(impl Files + AllocGlobal + Clone + Drop),
    folder: &str,
) -> io::Result<Vec<String>> {
    let alloc = rt.alloc();
    let mut names = Vec::new(alloc);
    for entry in fs::read_dir(rt, folder)? {
        names.push(String::from_str(alloc, entry?.file_name())?)?;
    }
    names.sort()?;
    Ok(names)
}

/// Prints the report of a text, and then the answer.
fn print_case(rt: &(impl Print + AllocGlobal), kind: Kind, text: &[u8]) -> io::Result<()> {
    let mut input = Counted::new(text);
    let mut output = Counted::new(io::writer(rt));
    let answer = match kind {
        Kind::Script => replay(rt.alloc(), &mut input, &mut output),
        Kind::List => show(rt.alloc(), &mut input, &mut output),
    };
    match answer {
        Ok(is_well) => println!(rt; "ok {is_well}"),
        Err(fault) => println!(rt; "{fault}"),
    }
}

/// Prints the cases of a file.
fn print_file(rt: &(impl Files + Print + AllocGlobal), folder: &str, name: &str) -> io::Result<()> {
    let Some(form) = form_of(name) else {
        return Err(io::Error::from(io::ErrorKind::InvalidFilename));
    };
    let path = format!(in rt.alloc(); "{folder}/{name}")?;
    let text = fs::read(rt, path)?;
    println!(rt; "== {name}")?;
    if !form.is_by_lines {
        return print_case(rt, form.kind, &text);
    }
    for line in text.split_inclusive(|byte| *byte == b'\n') {
        print_case(rt, form.kind, line)?;
    }
    Ok(())
}

/// Prints all cases of the folder that the program's word names. A file of another name is a fault.
pub(crate) fn run(rt: &(impl Env + Files + Print + AllocGlobal + Clone + Drop)) -> io::Result<()> {
    let mut words = env::args(rt)?.skip(1);
    let Some(folder) = words.next() else {
        return Err(io::Error::from(io::ErrorKind::InvalidInput));
    };
    for name in &names_in(rt, folder.as_str())? {
        print_file(rt, folder.as_str(), name.as_str())?;
    }
    Ok(())
}
