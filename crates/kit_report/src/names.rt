//! The words for yes and no.
ghost use Rattle.std.specs.Prelude.{◌≡◌};
ghost use Rattle.kit_report.specs.Names as spec;

pub(crate) fn yes_or_no(answer: bool) -> &'static str
    ensures { result.now ≡ spec.yes_or_no answer }
{
    if answer { "yes" } else { "no" }
}
