//! The settings of a script: `config SIDE KEY VALUE`.
ghost use Rattle.std.specs.Prelude.{◌≡◌};
ghost use Rattle.kit_script.specs.Settings.{shift_of, switch_of, setting_of, with_setting};

use kit_text::read_number;
use tcp_conn::Config;
use tcp_wire::Seq;

const ISN: &[u8] = b"isn";

const MSS: &[u8] = b"mss";

const SEND_CAPACITY: &[u8] = b"send";

const RECV_CAPACITY: &[u8] = b"recv";

const SHIFT: &[u8] = b"shift";

const SACK: &[u8] = b"sack";

const NONE: &[u8] = b"none";

const ON: &[u8] = b"on";

const OFF: &[u8] = b"off";

/// One value of a `Config`, as a script writes it.
#[derive(Clone, Copy, Debug, PartialEq, Eq)]
pub(crate) enum Setting {
    Isn(u32),
    Mss(u16),
    SendCapacity(usize),
    RecvCapacity(usize),
    WindowShift(Option<u8>),
    Sack(bool),
}

/// The shift of a word, or that none is offered (RFC 7323, 2.2).
pub fn read_shift(value: &[u8]) -> Option<Option<u8>>
    ensures { result ≡ shift_of value.now }
{
    if value == NONE {
        return Some(None);
    }
    Some(Some(read_number(value, 255)? as u8))
}

fn read_switch(value: &[u8]) -> Option<bool>
    ensures { result ≡ switch_of value.now }
{
    if value == ON {
        return Some(true);
    }
    if value == OFF {
        return Some(false);
    }
    None
}

/// The setting of a key and its value.
pub(crate) fn read_setting(key: &[u8], value: &[u8]) -> Option<Setting>
    ensures { result ≡ setting_of key.now value.now }
{
    if key == ISN {
        return Some(Setting::Isn(read_number(value, 4_294_967_295)? as u32));
    }
    if key == MSS {
        return Some(Setting::Mss(read_number(value, 65_535)? as u16));
    }
    if key == SEND_CAPACITY {
        return Some(Setting::SendCapacity(read_number(value, 4_294_967_295)? as usize));
    }
    if key == RECV_CAPACITY {
        return Some(Setting::RecvCapacity(read_number(value, 4_294_967_295)? as usize));
    }
    if key == SHIFT {
        return Some(Setting::WindowShift(read_shift(value)?));
    }
    if key == SACK {
        return Some(Setting::Sack(read_switch(value)?));
    }
    None
}

/// Sets one value.
pub(crate) fn set(config: &mut Config, setting: Setting)
    ensures { config.new ≡ with_setting config.old setting }
{
    match setting {
        Setting::Isn(isn) => config.isn = Seq(isn),
        Setting::Mss(mss) => config.mss = mss,
        Setting::SendCapacity(capacity) => config.send_capacity = capacity,
        Setting::RecvCapacity(capacity) => config.recv_capacity = capacity,
        Setting::WindowShift(shift) => config.window_shift = shift,
        Setting::Sack(sack) => config.sack = sack,
    }
}
