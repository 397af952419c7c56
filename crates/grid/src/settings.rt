ghost use Rattle.std.specs.Prelude.{◌≡◌, ◌%◌, ◌≤◌};

// The settings of a session: the tick, the indicative price, the absolute and the static band in percent,
// and the last order number given. Settings out of bounds cannot exist.
// The fields of the terms again, and no terms within: readers name them, and would name one step more each time.
#[derive(Clone, Copy, Debug, PartialEq, Eq)]
pub struct Settings {
    pub tick: u32,
    pub indicative: u32,
    pub absolute: u32,
    pub static_band: u32,
    pub last_number: u64,
    ghost tick_low: { 1 ≤ tick },
    ghost tick_high: { tick ≤ 1000 },
    ghost indicative_low: { 1 ≤ indicative },
    ghost indicative_high: { indicative ≤ 99999 },
    ghost on_tick: { indicative % tick ≡ 0 },
    ghost absolute_low: { 1 ≤ absolute },
    ghost absolute_high: { absolute ≤ 99 },
    ghost static_low: { 1 ≤ static_band },
    ghost static_high: { static_band ≤ 99 },
    ghost last_high: { last_number ≤ 999999999 },
}
