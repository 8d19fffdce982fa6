//! Colors of the report, for a terminal (ECMA-48, 8.3.117).

/// Whether the report has colors.
#[derive(Clone, Copy)]
pub struct Paint {
    pub is_on: bool,
}

impl Paint {
    /// What begins words of this color.
    fn begin(self, code: &'static str) -> &'static str {
        if self.is_on { code } else { "" }
    }

    /// Of what no rule forbids.
    pub(crate) fn green(self) -> &'static str {
        self.begin("\x1b[32m")
    }

    /// Of what breaks a rule.
    pub(crate) fn red(self) -> &'static str {
        self.begin("\x1b[31m")
    }

    /// Of notes.
    pub(crate) fn yellow(self) -> &'static str {
        self.begin("\x1b[33m")
    }

    /// What ends them.
    pub(crate) fn plain(self) -> &'static str {
        self.begin("\x1b[0m")
    }
}
