//! The form of a file by its ending.
ghost use Rattle.std.specs.Prelude.{◌≡◌};
ghost use Rattle.test_scripts.specs.Forms.{form_of_ending};

/// What a text is: a script or a list.
#[derive(Clone, Copy, Debug, PartialEq, Eq)]
pub enum Kind {
    Script,
    List,
}

/// What a file has.
#[derive(Clone, Copy, Debug, PartialEq, Eq)]
pub struct Form {
    /// What its texts are.
    pub kind: Kind,
    /// Whether each of its lines is a text of its own.
    pub is_by_lines: bool,
}

/// The form of a file with this ending.
pub fn form_of_ending(ending: &str) -> Option<Form>
    ensures { result ≡ form_of_ending ending.now }
{
    let (kind, is_by_lines) = match ending {
        "script" => (Kind::Script, false),
        "scripts" => (Kind::Script, true),
        "list" => (Kind::List, false),
        "lists" => (Kind::List, true),
        _ => return None,
    };
    Some(Form { kind, is_by_lines })
}
