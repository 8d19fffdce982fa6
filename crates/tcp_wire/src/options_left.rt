ghost use Rattle.std.specs.Prelude.{◌≡◌, ◌↔◌, ◌∷◌, [], IsNone, IfSome};
ghost use Rattle.tcp_wire.specs.View.{option_content};

use crate::option::TcpOption;
use crate::option_reading::read_option;
use std::marker::Model;

/// The options of a segment that weren't taken yet, in their order, where they are (RFC 9293, 3.1). A clause sees them
/// as the list of their contents.
#[derive(Debug, Drop)]
pub struct OptionsLeft<'a> {
    /// Their bytes, and the zeros after them.
    rest: &'a [u8],
}

impl<'a> Model for OptionsLeft<'a> {
    ghost use Rattle.std.specs.Prelude.{◌≤◌, List, length};
    ghost use Rattle.tcp_wire.specs.Options.{OptionContent};
    ghost use Rattle.tcp_wire.specs.Wire.{max_area_len};
    ghost use Rattle.tcp_wire.specs.Decoded.{IsReadable, options_of};

    ghost Value = { List OptionContent };

    ghost view = { λ o. (options_of o.rest.now).0 };

    ghost invariant = { λ o. (length o.rest.now ≤ max_area_len) × IsReadable o.rest.now };
}

impl<'a> OptionsLeft<'a> {
    ghost use Rattle.std.specs.Prelude.{◌≤◌, length};
    ghost use Rattle.tcp_wire.specs.Wire.{max_area_len};
    ghost use Rattle.tcp_wire.specs.Decoded.{IsReadable, options_of};

    /// The options of this area.
    pub(crate) fn of(area: &'a [u8]) -> Self
        requires fits { length area.now ≤ max_area_len }
        requires reads { IsReadable area.now }
        ensures { result ≡ (options_of area.now).0 }
    {
        OptionsLeft { rest: area }
    }

    /// Takes the next option; `None` where all were taken.
    pub fn next(&mut self) -> Option<TcpOption<'a>>
        ensures some { IfSome result (λ option. self.old ≡ option_content option ∷ self.new) }
        ensures none { IsNone result ↔ (self.old ≡ []) }
        ensures end { IsNone result → self.new ≡ [] }
    {
        match read_option(self.rest) {
            Some((option, behind)) => {
                self.rest = behind;
                Some(option)
            }
            None => None,
        }
    }
}
